// What the calls of a net ask of its table of states, and what they leave of it.
ghost use Rattle.std.specs.Prelude.{◌≡◌, ℕ, ◌+◌, ◌^◌, ◌<◌, ◌≤◌, map, length};
ghost use Rattle.std.specs.Option.{unwrap_or};
ghost use Rattle.semantics.specs.Net.{state_at};
ghost use Rattle.semantics.specs.Calls.{lowest_busy, lowest_past, number, telling, waited, word as word_call, step as step_call};
ghost use Rattle.delivery.specs.Known.{learned};
ghost use Rattle.gearing.specs.Gearing.{geared_by};
ghost use Rattle.calls.specs.Slots.{counted, written};
ghost use Rattle.net.specs.Invariant.{Within};
ghost use Rattle.net.specs.Nets.{net_of, state_over, state_of, outcome, later};

use super::held::Net;
use book::event::Event;
use book::record::Word;
use book::refusal::Refusal;
use book::term::Path;
use calls::{step, word};
use delivery::ask::stance_of;
use machine::Machine;
use machine::gear::Gear;
use semantics::state::StationState;

// The number of stations: a machine has at most 16.
pub(crate) fn count<M: Machine>(machine: &Gear<M>) -> usize
    ensures value { result ≡ length (learned (geared_by (M.Machine.meaning machine.now.below) machine.now.factors)) }
    ensures few { result ≤ 16 }
{
    machine.stations()
}

// So many more parts pass for every station.
fn advance(table: &mut [StationState; 16], more: u64)
    requires { (i : ℕ) → (state_at table.old i).elapsed + more < 2 ^ 64 }
    ensures { table.new ≡ map (later more) table.old }
{
    for state in table.iter_mut() {
        state.elapsed += more;
    }
}

impl<M: Machine> Net<M> {
    // What a station tells, if it is there.
    pub(crate) fn told_by(&self, station: usize) -> Option<(u16, u8, u64)>
        ensures { unwrap_or result (0, 0, 0) ≡ telling (net_of M.Machine.meaning self.now) (state_of M.Machine.meaning self.now) station }
    {
        if station == 0 || station > count(&self.rules.machine) {
            return None;
        }
        let state = self.table[station - 1];
        let info = stance_of(&self.rules.machine, station - 1, state.stance);
        Some((info.phase, info.sent, state.elapsed))
    }

    // The states of the stations.
    pub(crate) fn states(&self) -> &[StationState]
        ensures value { result.now ≡ (state_of M.Machine.meaning self.now).stations }
        ensures long { length result.now ≡ length (net_of M.Machine.meaning self.now).stations }
        ensures few { length result.now ≤ 16 }
    {
        &self.table[..count(&self.rules.machine)]
    }

    // The lowest busy station.
    pub(crate) fn busy_station(&self) -> Option<usize>
        ensures { result ≡ number (lowest_busy (net_of M.Machine.meaning self.now) (state_of M.Machine.meaning self.now)) }
    {
        let place = self.rules.lowest_busy(self.states())?;
        Some(place + 1)
    }

    // The lowest station that would be past its lifetime after so many more parts.
    pub(crate) fn past_station(&self, more: u64) -> Option<usize>
        ensures { result ≡ number (lowest_past (net_of M.Machine.meaning self.now) (state_of M.Machine.meaning self.now) more) }
    {
        let place = self.rules.lowest_past(self.states(), more)?;
        Some(place + 1)
    }

    // The table that a wait of so many parts leaves.
    pub(crate) fn after_wait(&self, d: u64) -> [StationState; 16]
        requires { self.now.total + d < 2 ^ 64 }
        ensures state { state_over M.Machine.meaning self.now.rules.machine result (self.now.total + d) ≡ waited (net_of M.Machine.meaning self.now) d (state_of M.Machine.meaning self.now) }
        ensures within { Within result (self.now.total + d) }
        ensures long { length result ≡ 16 }
    {
        let mut table = self.table;
        advance(&mut table, d);
        table
    }

    // The table that a word leaves, and what is answered.
    pub(crate) fn after_word(
        &self,
        paths: &[Path],
        port: u8,
        value: u8,
        events: &mut [Event],
    ) -> ([StationState; 16], Result<usize, Refusal>)
        ensures answer { result.1 ≡ counted (outcome M.Machine.meaning self.now paths.now (word_call port value (length events.old))).answer }
        ensures slots { events.new ≡ written (outcome M.Machine.meaning self.now paths.now (word_call port value (length events.old))).answer events.old }
        ensures state { state_over M.Machine.meaning self.now.rules.machine result.0 self.now.total ≡ (outcome M.Machine.meaning self.now paths.now (word_call port value (length events.old))).state }
        ensures within { Within result.0 self.now.total }
        ensures long { length result.0 ≡ 16 }
    {
        let stations = count(&self.rules.machine);
        let mut table = self.table;
        let answer = word(
            &self.rules,
            paths,
            Word { port, value },
            &mut table[..stations],
            events,
        );
        (table, answer)
    }

    // The table that a step leaves, and what is answered. Only the call is another one than for a
    // word; a function that took the call as a closure would need a contract longer than both.
    pub(crate) fn after_step(
        &self,
        paths: &[Path],
        events: &mut [Event],
    ) -> ([StationState; 16], Result<usize, Refusal>)
        ensures answer { result.1 ≡ counted (outcome M.Machine.meaning self.now paths.now (step_call (length events.old))).answer }
        ensures slots { events.new ≡ written (outcome M.Machine.meaning self.now paths.now (step_call (length events.old))).answer events.old }
        ensures state { state_over M.Machine.meaning self.now.rules.machine result.0 self.now.total ≡ (outcome M.Machine.meaning self.now paths.now (step_call (length events.old))).state }
        ensures within { Within result.0 self.now.total }
        ensures long { length result.0 ≡ 16 }
    {
        let stations = count(&self.rules.machine);
        let mut table = self.table;
        let answer = step(&self.rules, paths, &mut table[..stations], events);
        (table, answer)
    }
}
