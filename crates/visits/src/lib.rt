// The smallest record that breaks a rule, by walks along the chains of a book.

#![tactic(auto)]

pub mod rule;
pub mod visit;
