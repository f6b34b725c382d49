// Events, refusals and tellings as lines of text, without the heap.

#![tactic(auto)]

mod draft;
pub mod line;
mod number;
pub mod read;
pub mod write;
