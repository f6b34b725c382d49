// A word on its way along the paths, and a station's move. Each function writes its events into the
// first of the lent slots, and answers their number.
ghost use Rattle.std.specs.Prelude.{◌≡◌, suc, ◌+◌, ◌*◌, ◌<◌, ◌≤◌, length};
ghost use Rattle.semantics.specs.Machine.{meaning_at};
ghost use Rattle.semantics.specs.Net.{state_at, stance_at, arrive as arrival, deliver as delivery, send as sending, land as landing, act as acting};
ghost use Rattle.delivery.specs.Known.{known_net};
ghost use Rattle.delivery.specs.Telling.{along, Told};

use super::ask::stance_of;
use super::rules::Rules;
use book::event::{Event, EventKind};
use book::record::Word;
use book::term::Path;
use machine::Machine;
use semantics::state::StationState;

impl<M: Machine> Rules<M> {
    // A word arrives at a station, or outside. A station that hears it takes the following stance.
    fn arrive(
        &self,
        path: Path,
        value: u8,
        states: &mut [StationState],
        events: &mut [Event],
    ) -> usize
        requires there { length states.old ≡ length (M.Machine.meaning self.now.machine) }
        requires room { 2 ≤ length events.old }
        ensures { let net = known_net M.Machine.meaning self.now in Told (arrival net.stations net.parts states.old path.hearer path.hearer_port value) events.old events.new states.new 0 2 result }
    {
        events[0] = Event {
            kind: EventKind::Arrival,
            station: path.hearer,
            port: path.hearer_port,
            value: value as u16,
        };
        let hearer = path.hearer as usize;
        if hearer == 0 || hearer > states.len() {
            return 1;
        }
        let place = hearer - 1;
        let word = Word {
            port: path.hearer_port,
            value,
        };
        let Some(stance) = self.heard(place, states[place], word) else {
            return 1;
        };
        states[place] = StationState { stance, elapsed: 0 };
        events[1] = Event {
            kind: EventKind::External,
            station: path.hearer,
            port: 0,
            value: stance_of(&self.machine, place, stance).phase,
        };
        2
    }

    // One path: an arrival, if the word leaves there.
    fn follow(
        &self,
        from: u8,
        word: Word,
        path: Path,
        states: &mut [StationState],
        events: &mut [Event],
    ) -> usize
        requires there { length states.old ≡ length (M.Machine.meaning self.now.machine) }
        requires room { 2 ≤ length events.old }
        ensures { let net = known_net M.Machine.meaning self.now in Told (along net.stations net.parts from word.port word.value path states.old) events.old events.new states.new 0 2 result }
    {
        if path.sender == from && path.sender_port == word.port {
            self.arrive(path, word.value, states, events)
        } else {
            0
        }
    }

    // A word from a station, or from outside (0), along the paths in their order.
    pub fn deliver(
        &self,
        paths: &[Path],
        from: u8,
        word: Word,
        states: &mut [StationState],
        events: &mut [Event],
    ) -> usize
        requires there { length states.old ≡ length (M.Machine.meaning self.now.machine) }
        requires room { 2 * length paths.now ≤ length events.old }
        ensures { let net = known_net M.Machine.meaning self.now in Told (delivery net.stations net.parts paths.now from word.port word.value states.old) events.old events.new states.new 0 (2 * length paths.now) result }
    {
        let mut told = 0;
        for path in paths {
            told += self.follow(from, word, *path, states, &mut events[told..]);
        }
        told
    }

    // The output: the word of a move, if any, is told and goes along the paths.
    fn send(
        &self,
        paths: &[Path],
        place: usize,
        word: Option<Word>,
        states: &mut [StationState],
        events: &mut [Event],
    ) -> usize
        requires there { (length states.old ≡ length (M.Machine.meaning self.now.machine)) × (place < 16) }
        requires room { 1 + 2 * length paths.now ≤ length events.old }
        ensures { let net = known_net M.Machine.meaning self.now in Told (sending net.stations net.parts paths.now place word states.old) events.old events.new states.new 0 (1 + 2 * length paths.now) result }
    {
        let Some(word) = word else {
            return 0;
        };
        let station = (place + 1) as u8;
        events[0] = Event {
            kind: EventKind::Output,
            station,
            port: word.port,
            value: word.value as u16,
        };
        1 + self.deliver(paths, station, word, states, &mut events[1..])
    }

    // The internal transition: into a quiet stance elapsed is 0 and an event tells it, into a busy one
    // elapsed stays as it was.
    fn land(
        &self,
        place: usize,
        next: StationState,
        states: &mut [StationState],
        events: &mut [Event],
    ) -> usize
        requires there { (place < 16) × (place < length states.old) }
        requires room { 1 ≤ length events.old }
        ensures { let net = known_net M.Machine.meaning self.now in Told (landing place next.stance next.elapsed ((meaning_at net.stations place).stance next.stance) states.old) events.old events.new states.new 0 1 result }
    {
        let info = stance_of(&self.machine, place, next.stance);
        if info.busy {
            states[place] = next;
            return 0;
        }
        states[place] = StationState { elapsed: 0, ..next };
        events[0] = Event {
            kind: EventKind::Internal,
            station: (place + 1) as u8,
            port: 0,
            value: info.phase,
        };
        1
    }

    // The station at a place makes its move: first its word is delivered, then it takes the following
    // stance.
    pub fn act(
        &self,
        paths: &[Path],
        place: usize,
        states: &mut [StationState],
        events: &mut [Event],
    ) -> usize
        requires there { (length states.old ≡ length (M.Machine.meaning self.now.machine)) × (place < length states.old) }
        requires room { 2 + 2 * length paths.now ≤ length events.old }
        ensures { let net = known_net M.Machine.meaning self.now in Told (acting net.stations net.parts paths.now place (stance_at net.stations states.old place).move states.old) events.old events.new states.new 0 (2 + 2 * length paths.now) result }
    {
        let state = states[place];
        let Some(step) = stance_of(&self.machine, place, state.stance).next_move else {
            return 0;
        };
        let told = self.send(paths, place, step.word, states, events);
        let next = StationState {
            stance: step.follows,
            elapsed: state.elapsed,
        };
        told + self.land(place, next, states, &mut events[told..])
    }
}
