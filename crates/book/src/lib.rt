// The terms of model books and automaton books, and their bytes. Every other crate imports this one.

#![tactic(auto)]

pub mod bytes;
pub mod event;
pub mod record;
pub mod refusal;
pub mod term;
