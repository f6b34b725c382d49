// What the machine says of the stances that the stations of a net stand in. Places count from 0:
// place i is station i + 1.
ghost use Rattle.std.specs.Prelude.{◌≡◌, ◌+◌, ◌^◌, ◌<◌, ◌≤◌, length};
ghost use Rattle.semantics.specs.Machine.{meaning_at};
ghost use Rattle.semantics.specs.Net.{ends_now, runs_out, stance_at, busy_at, due_at, past_at};
ghost use Rattle.semantics.specs.Calls.{lowest};
ghost use Rattle.machine.specs.Stances.{told};
ghost use Rattle.delivery.specs.Known.{learned, known_net};

use super::rules::{Parts, Rules};
use book::record::Word;
use machine::Machine;
use machine::stance::StanceInfo;
use semantics::state::StationState;

// What is told of a number that is no stance.
const BLANK: StanceInfo = StanceInfo {
    phase: 0,
    sent: 0,
    busy: false,
    lifetime: None,
    next_move: None,
};

// What is told of a stance; of a number that is no stance, the blank.
pub fn stance_of<M: Machine>(machine: &M, place: usize, stance: u32) -> StanceInfo
    requires { place + 1 < 2 ^ 64 }
    ensures { result ≡ told ((meaning_at (learned (M.Machine.meaning machine.now)) place).stance stance) }
{
    machine.stance(place + 1, stance).unwrap_or(BLANK)
}

// A lifetime ends now.
fn ends(lifetime: Option<u64>, parts: Parts, elapsed: u64) -> bool
    ensures { result ≡ ends_now lifetime parts.number elapsed }
{
    lifetime.is_some_and(|ticks| elapsed as u128 == ticks as u128 * parts.number as u128)
}

// A lifetime would be passed after so many more parts.
fn passes(lifetime: Option<u64>, parts: Parts, elapsed: u64, more: u64) -> bool
    ensures { result ≡ runs_out lifetime parts.number (elapsed + more) }
{
    lifetime.is_some_and(|ticks| {
        ticks as u128 * (parts.number as u128) < elapsed as u128 + more as u128
    })
}

impl<M: Machine> Rules<M> {
    // What a station's stance hears.
    pub fn heard(&self, place: usize, state: StationState, word: Word) -> Option<u32>
        requires { place + 1 < 2 ^ 64 }
        ensures { result ≡ ((meaning_at (known_net M.Machine.meaning self.now).stations place).stance state.stance).hears word.port word.value state.elapsed self.now.parts.number }
    {
        self.machine
            .hearing(
                place + 1,
                state.stance,
                word,
                state.elapsed,
                self.parts.number,
            )
            .flatten()
    }

    // What is told of the stance that the station at a place stands in.
    fn told_at(&self, states: &[StationState], place: usize) -> StanceInfo
        requires { place < length states.now }
        ensures { result ≡ told (stance_at (known_net M.Machine.meaning self.now).stations states.now place) }
    {
        stance_of(&self.machine, place, states[place].stance)
    }

    // The station at a place is quiet, and its lifetime ends now.
    fn is_due(&self, states: &[StationState], place: usize) -> bool
        requires { place < length states.now }
        ensures { let net = known_net M.Machine.meaning self.now in result ≡ due_at net.stations net.parts states.now place }
    {
        let info = self.told_at(states, place);
        !info.busy && ends(info.lifetime, self.parts, states[place].elapsed)
    }

    // The station at a place would be past its lifetime after so many more parts.
    fn is_past(&self, states: &[StationState], place: usize, more: u64) -> bool
        requires { place < length states.now }
        ensures { let net = known_net M.Machine.meaning self.now in result ≡ past_at net.stations net.parts states.now more place }
    {
        let lifetime = self.told_at(states, place).lifetime;
        passes(lifetime, self.parts, states[place].elapsed, more)
    }

    // The lowest place whose station is busy.
    pub fn lowest_busy(&self, states: &[StationState]) -> Option<usize>
        ensures { let net = known_net M.Machine.meaning self.now in result ≡ lowest (busy_at net.stations states.now) 0 (length states.now) }
    {
        (0..states.len()).find(|place| self.told_at(states, *place).busy)
    }

    // The lowest place whose station is due.
    pub fn lowest_due(&self, states: &[StationState]) -> Option<usize>
        ensures { let net = known_net M.Machine.meaning self.now in result ≡ lowest (due_at net.stations net.parts states.now) 0 (length states.now) }
    {
        (0..states.len()).find(|place| self.is_due(states, *place))
    }

    // The lowest place whose station would be past its lifetime after so many more parts.
    pub fn lowest_past(&self, states: &[StationState], more: u64) -> Option<usize>
        ensures { let net = known_net M.Machine.meaning self.now in result ≡ lowest (past_at net.stations net.parts states.now more) 0 (length states.now) }
    {
        (0..states.len()).find(|place| self.is_past(states, *place, more))
    }
}
