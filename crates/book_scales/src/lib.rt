// The scales of a book's stations and of its net.

#![tactic(auto)]

pub mod book_scale;
mod grow;
