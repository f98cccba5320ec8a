// What can be said of a trigger without making it: whether its output stands already, and for which variables it is blocked. The contracts cite
// specs/Standing, specs/Starred, specs/Decisive and specs/Reason.
#![tactic(auto)]

pub mod reason;
pub mod standing;
pub mod stars;
