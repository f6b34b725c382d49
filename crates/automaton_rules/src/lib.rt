// The rules of an automaton book about goals and about limits.

#![tactic(auto)]

pub mod goals;
pub mod limits;
