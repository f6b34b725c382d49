// The index fields of records: what they name, the chains that they form, and what is reached
// through them from a book's head.

#![tactic(auto)]

pub mod chain;
pub mod link;
pub mod reach;
pub mod walk;
