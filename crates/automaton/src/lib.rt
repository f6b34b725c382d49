// The machine over an automaton book.

#![tactic(auto)]

pub mod automata;
mod location;
pub mod questions;
