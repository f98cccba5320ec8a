// A rule out of a form: where it stands, its counts, and its atoms by value. Every function over a form asks for one that holds a
// well-formed rule set, as the reader leaves it. The contracts cite the crate's specs.
#![tactic(auto)]

pub mod atoms;
pub mod counts;
pub mod layout;
