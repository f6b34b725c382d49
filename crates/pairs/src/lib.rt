// Edges of a phase that take one word at one moment: each edge is read once, into a table, and the
// pairs are compared there.

#![tactic(auto)]

pub mod search;
pub mod shared;
pub mod taker;
