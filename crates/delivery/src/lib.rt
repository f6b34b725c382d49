// What a net does with the states of its stations: the tests of each station, the delivery of a word
// along the paths, and a station's move.

#![tactic(auto)]

pub mod ask;
pub mod deliver;
pub mod rules;
