// One stage made of another: the triggers of each rule, in order. The contracts cite Stage of stage_making, and Making of rows.
#![tactic(auto)]

pub mod stage;
