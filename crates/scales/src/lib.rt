// Scales: least common multiples with a limit, and times in ticks.

#![tactic(auto)]

pub mod meaning;
pub mod multiple;
pub mod scale;
