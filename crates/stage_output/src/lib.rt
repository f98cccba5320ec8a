// The output of a trigger, entered into the tables of the next stage: its terms and facts, and its first cyclic row; and whether no output of a
// rule can have a cyclic row. The contracts cite the definitions over rows of `rows` and `laws_skipping`.
#![tactic(auto)]

pub mod atoms;
pub mod cyclic;
pub mod full;
pub mod output;
