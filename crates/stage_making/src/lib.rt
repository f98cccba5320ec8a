// What the making of a rule's triggers asks and leaves, behind a stage that is left; and one trigger made. The contracts cite specs/Stage,
// specs/Spent and specs/Trigger.
#![tactic(auto)]

pub mod progress;
pub mod trigger;
