// Questions about the chains of a book: whether a record is in one, how many records it has, which
// edges break a rule, and which paths have wrong ends.

#![tactic(auto)]

pub mod edge;
pub mod member;
pub mod path;
