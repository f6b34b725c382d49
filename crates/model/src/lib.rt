// The machine over a model book.

#![tactic(auto)]

pub mod model;
mod phase;
pub mod questions;
