// The rules of a model book about goals and about limits.

#![tactic(auto)]

pub mod goals;
pub mod limits;
mod time;
