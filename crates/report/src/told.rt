// The records of books, as text.
use book::record::{
    AutomatonBody, Edge, Fraction, HighEnd, Label, Location, ModelBody, Phase, Record, Transition,
    Window,
};
use book::term::Path;
use std::fmt;

// A part of a record that prints as text.
#[derive(Clone, Copy)]
pub(super) struct Told<T>(pub(super) T);

// A station's end of a path.
#[derive(Clone, Copy)]
struct End {
    station: u8,
    port: u8,
}

impl fmt::Display for Told<End> {
    fn fmt<W: fmt::Write>(&self, f: &mut fmt::Formatter<W>) -> fmt::Result {
        let End { station, port } = self.0;
        if station == 0 {
            write!(f, "outside port {port}")
        } else {
            write!(f, "station {station} port {port}")
        }
    }
}

impl fmt::Display for Told<Path> {
    fn fmt<W: fmt::Write>(&self, f: &mut fmt::Formatter<W>) -> fmt::Result {
        let from = Told(End {
            station: self.0.sender,
            port: self.0.sender_port,
        });
        let to = Told(End {
            station: self.0.hearer,
            port: self.0.hearer_port,
        });
        write!(f, "from {from} to {to}")
    }
}

impl fmt::Display for Told<Fraction> {
    fn fmt<W: fmt::Write>(&self, f: &mut fmt::Formatter<W>) -> fmt::Result {
        write!(f, "{}/{}", self.0.numerator, self.0.denominator)
    }
}

// A number of ticks.
impl fmt::Display for Told<u64> {
    fn fmt<W: fmt::Write>(&self, f: &mut fmt::Formatter<W>) -> fmt::Result {
        write!(f, "{}", self.0)
    }
}

// In what the ends of a window are counted.
trait Time: Copy {
    const UNIT: &'static str;
}

impl Time for Fraction {
    const UNIT: &'static str = "s";
}

impl Time for u64 {
    const UNIT: &'static str = "ticks";
}

impl<T: Time> fmt::Display for Told<Window<T>>
where
    Told<T>: fmt::Display,
{
    fn fmt<W: fmt::Write>(&self, f: &mut fmt::Formatter<W>) -> fmt::Result {
        let bracket = if self.0.low_open { '(' } else { '[' };
        let low = Told(self.0.low);
        let unit = T::UNIT;
        match self.0.high {
            HighEnd::Closed(high) => write!(f, "{bracket}{low}, {}] {unit}", Told(high)),
            HighEnd::Open(high) => write!(f, "{bracket}{low}, {}) {unit}", Told(high)),
            HighEnd::Absent => write!(f, "{bracket}{low}, no end) {unit}"),
        }
    }
}

impl fmt::Display for Told<Phase> {
    fn fmt<W: fmt::Write>(&self, f: &mut fmt::Formatter<W>) -> fmt::Result {
        let Phase {
            first_edge,
            next_phase,
            first_word,
            lifetime,
        } = self.0;
        write!(
            f,
            "first edge {first_edge}, next phase {next_phase}, first word {first_word}, "
        )?;
        if lifetime.numerator == 0 && lifetime.denominator == 0 {
            f.write_str("endless")
        } else {
            write!(f, "lasts {} s", Told(lifetime))
        }
    }
}

impl fmt::Display for Told<Edge> {
    fn fmt<W: fmt::Write>(&self, f: &mut fmt::Formatter<W>) -> fmt::Result {
        let Edge {
            goal,
            port,
            lowest,
            highest,
            window,
        } = self.0;
        let window = Told(window);
        write!(
            f,
            "goal {goal}, port {port}, values {lowest} to {highest}, window {window}"
        )
    }
}

// A model record's kind and fields.
impl fmt::Display for Told<Record<ModelBody>> {
    fn fmt<W: fmt::Write>(&self, f: &mut fmt::Formatter<W>) -> fmt::Result {
        let next = self.0.next;
        match self.0.body {
            ModelBody::Station(station) => {
                let first = station.first_phase;
                let opening = station.opening;
                write!(
                    f,
                    "station: next {next}, first phase {first}, opening {opening}"
                )
            }
            ModelBody::Phase(phase) => write!(f, "phase: next {next}, {}", Told(phase)),
            ModelBody::Edge(edge) => write!(f, "edge: next {next}, {}", Told(edge)),
            ModelBody::Word(word) => {
                write!(
                    f,
                    "word: next {next}, port {}, value {}",
                    word.port, word.value
                )
            }
            ModelBody::Path(path) => write!(f, "path: next {next}, {}", Told(path)),
        }
    }
}

impl fmt::Display for Told<Location> {
    fn fmt<W: fmt::Write>(&self, f: &mut fmt::Formatter<W>) -> fmt::Result {
        let Location {
            first_transition,
            phase,
            sent,
            committed,
            bound,
        } = self.0;
        write!(
            f,
            "first transition {first_transition}, phase {phase}, words sent {sent}, "
        )?;
        match bound {
            Some(ticks) => write!(f, "bound {ticks} ticks")?,
            None => f.write_str("no bound")?,
        }
        f.write_str(if committed { ", committed" } else { "" })
    }
}

impl fmt::Display for Told<Label> {
    fn fmt<W: fmt::Write>(&self, f: &mut fmt::Formatter<W>) -> fmt::Result {
        match self.0 {
            Label::Silent => f.write_str("silent"),
            Label::Hears {
                port,
                lowest,
                highest,
            } => write!(f, "hears port {port}, values {lowest} to {highest}"),
            Label::Sends { port, value } => write!(f, "sends {value} on port {port}"),
        }
    }
}

impl fmt::Display for Told<Transition> {
    fn fmt<W: fmt::Write>(&self, f: &mut fmt::Formatter<W>) -> fmt::Result {
        let goal = self.0.goal;
        let label = Told(self.0.label);
        let guard = Told(self.0.guard);
        let reset = if self.0.resets {
            ", resets the clock"
        } else {
            ""
        };
        write!(f, "goal {goal}, {label}, guard {guard}{reset}")
    }
}

// An automaton record's kind and fields.
impl fmt::Display for Told<Record<AutomatonBody>> {
    fn fmt<W: fmt::Write>(&self, f: &mut fmt::Formatter<W>) -> fmt::Result {
        let next = self.0.next;
        match self.0.body {
            AutomatonBody::Automaton(automaton) => {
                let first = automaton.first_location;
                let opening = automaton.opening;
                let scale = automaton.scale;
                write!(
                    f,
                    "automaton: next {next}, first location {first}, opening {opening}, scale {scale}"
                )
            }
            AutomatonBody::Location(location) => {
                write!(f, "location: next {next}, {}", Told(location))
            }
            AutomatonBody::Transition(transition) => {
                write!(f, "transition: next {next}, {}", Told(transition))
            }
            AutomatonBody::Path(path) => write!(f, "path: next {next}, {}", Told(path)),
        }
    }
}

// The bytes of a row, as pairs of hexadecimal digits.
impl fmt::Display for Told<&[u8]> {
    fn fmt<W: fmt::Write>(&self, f: &mut fmt::Formatter<W>) -> fmt::Result {
        f.write_str("bytes")?;
        for byte in self.0 {
            write!(f, " {byte:02x}")?;
        }
        Ok(())
    }
}
