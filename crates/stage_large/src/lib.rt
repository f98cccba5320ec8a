// Refusal 11, before a stage is made of another; and rules that a stage has nothing new for. The contracts cite specs/Stage, specs/Large, and
// Judging of rows.
#![tactic(auto)]

pub mod counts;
pub mod idle;
pub mod large;
