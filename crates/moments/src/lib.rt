// Moments, whether they lie in windows, and parts of a tick.

#![tactic(auto)]

pub mod moment;
pub mod window;
