// Spans of time: the window that counts, whether a window holds no time, and what two windows
// share. Windows in seconds and guards in ticks go by one code, over any kind of time.

#![tactic(auto)]

pub mod hearing;
pub mod meaning;
pub mod time;
pub mod window;
