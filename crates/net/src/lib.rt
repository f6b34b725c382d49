// A net of stations over any machine.

#![tactic(auto)]

mod building;
mod call;
mod held;
mod table;

pub use held::Net;
