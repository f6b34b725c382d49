// The calls of a net.
ghost use Rattle.std.specs.Prelude.{◌≡◌, ◌≤◌, [], length};
ghost use Rattle.semantics.specs.Calls.{telling, wait as wait_call, word as word_call, step as step_call};
ghost use Rattle.calls.specs.Slots.{counted, written};
ghost use Rattle.net.specs.Nets.{gear_of, net_of, state_of, outcome, done};

use super::held::Net;
use super::table::count;
use book::event::Event;
use book::refusal::{Fault, Refusal};
use book::term::Path;
use machine::Machine;

// The most parts that all waits of a net may come to.
const MOST_PARTS: u64 = 1_000_000_000_000_000;

impl<M: Machine> Net<M> {
    // The number of stations.
    pub fn stations(&self) -> usize
        ensures value { result ≡ length (net_of M.Machine.meaning self.now).stations }
        ensures few { result ≤ 16 }
    {
        count(&self.rules.machine)
    }

    // What a station tells: its phase, words sent and elapsed parts together. Station 0 and one past
    // the last tell zeros.
    pub fn tell(&self, station: usize) -> (u16, u8, u64)
        ensures { result ≡ telling (net_of M.Machine.meaning self.now) (state_of M.Machine.meaning self.now) station }
    {
        self.told_by(station).unwrap_or((0, 0, 0))
    }

    // Lets so many parts pass.
    pub fn wait(&mut self, d: u64) -> Result<(), Refusal>
        ensures answer { result ≡ done (outcome M.Machine.meaning self.old [] (wait_call d)).answer }
        ensures state { state_of M.Machine.meaning self.new ≡ (outcome M.Machine.meaning self.old [] (wait_call d)).state }
        ensures net { net_of M.Machine.meaning self.new ≡ net_of M.Machine.meaning self.old }
        ensures machine { gear_of self.new ≡ gear_of self.old }
    {
        if let Some(station) = self.busy_station() {
            return Err(Fault::Busy.at(station));
        }
        if let Some(station) = self.past_station(d) {
            return Err(Fault::Lifetime.at(station));
        }
        if d > MOST_PARTS - self.total {
            return Err(Fault::Total.at(0));
        }
        let table = self.after_wait(d);
        self.table = table;
        self.total += d;
        Ok(())
    }

    // A word from outside, to a port. The events go into the first slots, and the answer is their
    // number.
    pub fn word(
        &mut self,
        paths: &[Path],
        port: u8,
        value: u8,
        events: &mut [Event],
    ) -> Result<usize, Refusal>
        ensures answer { result ≡ counted (outcome M.Machine.meaning self.old paths.now (word_call port value (length events.old))).answer }
        ensures slots { events.new ≡ written (outcome M.Machine.meaning self.old paths.now (word_call port value (length events.old))).answer events.old }
        ensures state { state_of M.Machine.meaning self.new ≡ (outcome M.Machine.meaning self.old paths.now (word_call port value (length events.old))).state }
        ensures net { net_of M.Machine.meaning self.new ≡ net_of M.Machine.meaning self.old }
        ensures machine { gear_of self.new ≡ gear_of self.old }
    {
        let (table, answer) = self.after_word(paths, port, value, events);
        self.table = table;
        answer
    }

    // A step of the lowest busy station, or else of the lowest due one. The events go into the first
    // slots, and the answer is their number.
    pub fn step(&mut self, paths: &[Path], events: &mut [Event]) -> Result<usize, Refusal>
        ensures answer { result ≡ counted (outcome M.Machine.meaning self.old paths.now (step_call (length events.old))).answer }
        ensures slots { events.new ≡ written (outcome M.Machine.meaning self.old paths.now (step_call (length events.old))).answer events.old }
        ensures state { state_of M.Machine.meaning self.new ≡ (outcome M.Machine.meaning self.old paths.now (step_call (length events.old))).state }
        ensures net { net_of M.Machine.meaning self.new ≡ net_of M.Machine.meaning self.old }
        ensures machine { gear_of self.new ≡ gear_of self.old }
    {
        let (table, answer) = self.after_step(paths, events);
        self.table = table;
        answer
    }
}
