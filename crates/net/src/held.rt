// A net over any machine, and what it keeps.
ghost use Rattle.std.specs.Prelude.{◌≡◌, ◌≤◌, length};
ghost use Rattle.net.specs.Invariant.{Within};

use delivery::rules::Rules;
use machine::Machine;
use machine::gear::Gear;
use semantics::state::StationState;

// The machine geared to the net scale, with the order and the parts per net tick; the total of all
// waits in parts; and the state of each station, station 1 first.
#[derive(Drop)]
pub struct Net<M: Machine> {
    pub(crate) rules: Rules<Gear<M>>,
    pub(crate) total: u64,
    // Stays: a net uses no heap, and a machine has at most 16 stations.
    pub(crate) table: [StationState; 16],
    ghost long: { length table ≡ 16 },
    ghost fits: { total ≤ 1000000000000000 },
    ghost within: { Within table total },
}
