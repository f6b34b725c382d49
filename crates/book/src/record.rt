// The records of both kinds of book, each with its fields by name. Indexes and goals are record
// numbers, counted from 1; an index of 0 names nothing.
ghost use Rattle.std.specs.Prelude.{◌≡◌};
ghost use Rattle.book.specs.Ends.{end_of};

use super::term::{Order, Path};

// The head of a book, besides its kind and its number of records: the order of its net, its first
// station or automaton, and its first path.
#[derive(Clone, Copy, PartialEq, Eq, Debug)]
pub struct Head {
    pub order: Order,
    pub first_station: u16,
    pub first_path: u16,
}

// A fraction as it stands in a book. 0/0 stands for an endless lifetime.
#[derive(Clone, Copy, PartialEq, Eq, Debug)]
pub struct Fraction {
    pub numerator: u32,
    pub denominator: u32,
}

// The upper end of a window or a guard.
#[derive(Clone, Copy, PartialEq, Eq, Debug)]
pub enum HighEnd<T> {
    Closed(T),
    Open(T),
    Absent,
}

impl<T: Copy> HighEnd<T> {
    // Where it lies, if there is one.
    pub fn end(self) -> Option<T>
        ensures { result ≡ end_of self }
    {
        match self {
            HighEnd::Closed(end) | HighEnd::Open(end) => Some(end),
            HighEnd::Absent => None,
        }
    }
}

// The moments at which an edge or a transition may be taken, from the low end to the high end.
#[derive(Clone, Copy, PartialEq, Eq, Debug)]
pub struct Window<T> {
    pub low: T,
    pub low_open: bool,
    pub high: HighEnd<T>,
}

// A record: the next one of its chain, and what it holds.
#[derive(Clone, Copy, PartialEq, Eq, Debug)]
pub struct Record<B> {
    pub next: u16,
    pub body: B,
}

// A station model: the first of its phases, and the one that it opens in.
#[derive(Clone, Copy, PartialEq, Eq, Debug)]
pub struct Station {
    pub first_phase: u16,
    pub opening: u16,
}

// A phase. After its lifetime (the time advance, in seconds) it sends its words, and the next
// phase follows.
#[derive(Clone, Copy, PartialEq, Eq, Debug)]
pub struct Phase {
    pub first_edge: u16,
    pub next_phase: u16,
    pub first_word: u16,
    pub lifetime: Fraction,
}

// An edge (external transition): a word on the port, with a value from lowest to highest, at a
// moment of the window, leads to the goal.
#[derive(Clone, Copy, PartialEq, Eq, Debug)]
pub struct Edge {
    pub goal: u16,
    pub port: u8,
    pub lowest: u8,
    pub highest: u8,
    pub window: Window<Fraction>,
}

// A word that a phase sends.
#[derive(Clone, Copy, PartialEq, Eq, Debug)]
pub struct Word {
    pub port: u8,
    pub value: u8,
}

#[derive(Clone, Copy, PartialEq, Eq, Debug)]
pub enum ModelBody {
    Station(Station),
    Phase(Phase),
    Edge(Edge),
    Word(Word),
    Path(Path),
}

// A timed automaton: the first of its locations, the one that it opens in, and its ticks per second.
#[derive(Clone, Copy, PartialEq, Eq, Debug)]
pub struct Automaton {
    pub first_location: u16,
    pub opening: u16,
    pub scale: u32,
}

// A location: the phase and the number of words sent that it stands for; no time passes while it
// is committed; the bound (invariant) is in ticks.
#[derive(Clone, Copy, PartialEq, Eq, Debug)]
pub struct Location {
    pub first_transition: u16,
    pub phase: u16,
    pub sent: u8,
    pub committed: bool,
    pub bound: Option<u64>,
}

// What a transition does with words.
#[derive(Clone, Copy, PartialEq, Eq, Debug)]
pub enum Label {
    Silent,
    Hears { port: u8, lowest: u8, highest: u8 },
    Sends { port: u8, value: u8 },
}

// A transition: its guard is a window in ticks, and the clock restarts if it resets.
#[derive(Clone, Copy, PartialEq, Eq, Debug)]
pub struct Transition {
    pub goal: u16,
    pub label: Label,
    pub resets: bool,
    pub guard: Window<u64>,
}

#[derive(Clone, Copy, PartialEq, Eq, Debug)]
pub enum AutomatonBody {
    Automaton(Automaton),
    Location(Location),
    Transition(Transition),
    Path(Path),
}
