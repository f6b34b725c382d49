// The fields of a record, read where it lies in a book. A record is read as whatever kind is asked
// for; bytes that the book lacks read as 0.

#![tactic(auto)]

pub mod automaton;
pub mod model;
