// What the program says of a book, as text.

#![tactic(auto)]

pub mod account;
pub mod listing;
mod told;
