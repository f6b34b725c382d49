// What a machine tells of a stance.
use semantics::state::Move;

// The phase and the number of words sent that a stance tells, whether it is busy, its lifetime in
// ticks or none if it is endless, and its next move.
#[derive(Clone, Copy)]
pub struct StanceInfo {
    pub phase: u16,
    pub sent: u8,
    pub busy: bool,
    pub lifetime: Option<u64>,
    pub next_move: Option<Move>,
}
