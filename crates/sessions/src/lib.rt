// Sessions: a script of calls, played on a net, with every answer as lines of text. What is written
// is tested; the functions are proved to be safe and to end.

#![tactic(auto)]

ghost use Rattle.std.specs.Prelude.{◌≤◌};

pub mod whole;

use book::event::{Event, EventKind};
use book::refusal::Refusal;
use book::term::{Order, Path};
use lines::line::{Line, Telling};
use lines::write::write_line;
use machine::Machine;
use net::Net;
use script::{Command, Mistake, parse};
use std::alloc::{AllocError, AllocFailed, Global};
use std::error::Error;
use std::io::{BufRead, Write};
use std::{fmt, io};

// What ends a session before its script does.
#[derive(Debug, Drop)]
pub enum Broken {
    // the book is not lawful
    Unlawful(Refusal),
    // a line, by its number from 1, that is no call
    BadLine(u64, Mistake),
    // a call before a making that succeeded
    NoNet(u64),
    Failed(io::Error),
    OutOfMemory,
}

impl fmt::Display for Broken {
    fn fmt<W: fmt::Write>(&self, f: &mut fmt::Formatter<W>) -> fmt::Result {
        match self {
            Broken::Unlawful(refusal) => write!(f, "{} at {}", refusal.fault, refusal.place),
            Broken::BadLine(number, mistake) => write!(f, "line {number}: {mistake}"),
            Broken::NoNet(number) => write!(f, "line {number}: no net has been made yet"),
            Broken::Failed(error) => write!(f, "{error}"),
            Broken::OutOfMemory => f.write_str("there is no memory left"),
        }
    }
}

impl Error for Broken {}

impl From<io::Error> for Broken {
    fn from(error: io::Error) -> Broken {
        Broken::Failed(error)
    }
}

impl From<AllocError> for Broken {
    fn from(_: AllocError) -> Broken {
        Broken::OutOfMemory
    }
}

impl<T: Drop> From<AllocFailed<T>> for Broken {
    fn from(_: AllocFailed<T>) -> Broken {
        Broken::OutOfMemory
    }
}

const NO_EVENT: Event = Event {
    kind: EventKind::Created,
    station: 0,
    port: 0,
    value: 0,
};

// The paths in use, and slots enough for the events of any one call with them.
#[derive(Drop)]
pub struct Lists {
    paths: Vec<Path>,
    slots: Vec<Event>,
}

impl Lists {
    // With slots for each of 16 stations at a making, and for an event and two for each path at a
    // word or a step.
    pub fn of(heap: Global, paths: Vec<Path>) -> Result<Lists, Broken> {
        let room = paths.len().saturating_mul(2).saturating_add(16);
        let slots = vec![in heap; NO_EVENT; room]?;
        Ok(Lists { paths, slots })
    }
}

// How many of the slots a call is given.
fn given(wanted: Option<usize>, room: usize) -> usize
    ensures { result ≤ room }
{
    wanted.unwrap_or(room).min(room)
}

// Writing a line uses no heap, so that it lends a buffer, which the longest line fits.
fn tell_line<W: Write>(out: &mut W, line: Line) -> Result<(), Broken> {
    let mut buffer = [0; 64];
    if let Ok(count) = write_line(line, &mut buffer) {
        if let Some(text) = buffer.get(..count) {
            out.write_all(text)?;
        }
    }
    Ok(())
}

// The machine of a book with its order, the paths and slots in use, the net that was made last, and
// where the answers are written.
#[derive(Drop)]
struct Session<'a, M: Machine, W> {
    machine: M,
    order: Order,
    lists: Lists,
    net: Option<Net<M>>,
    out: &'a mut W,
}

impl<M: Machine + Copy + Drop, W: Write> Session<'_, M, W> {
    // The events of a call, which stand in the first slots, or its refusal.
    fn tell_answer(&mut self, answer: Result<usize, Refusal>) -> Result<(), Broken> {
        match answer {
            Ok(count) => {
                for event in self.lists.slots.iter().take(count) {
                    tell_line(self.out, Line::Event(*event))?;
                }
                Ok(())
            }
            Err(refusal) => tell_line(self.out, Line::Refusal(refusal)),
        }
    }

    // Makes a net; the one before it stays where that is refused.
    fn make(&mut self, parts: u64, wanted: Option<usize>) -> Result<(), Broken> {
        let Lists { paths, slots } = &mut self.lists;
        let room = given(wanted, slots.len());
        let made = Net::make(self.machine, paths, self.order, parts, &mut slots[..room]);
        let answer = made.map(|(net, count)| {
            self.net = Some(net);
            count
        });
        self.tell_answer(answer)
    }

    // A wait, a word, a step or a telling of the net, which line `number` asks for.
    fn call(&mut self, number: u64, command: Command) -> Result<(), Broken> {
        let net = self.net.as_mut().ok_or(Broken::NoNet(number))?;
        let Lists { paths, slots } = &mut self.lists;
        let room = slots.len();
        let answer = match command {
            Command::Wait { parts } => net.wait(parts).map(|()| 0),
            Command::Word {
                port,
                value,
                slots: wanted,
            } => net.word(paths, port, value, &mut slots[..given(wanted, room)]),
            Command::Step { slots: wanted } => {
                net.step(paths, &mut slots[..given(wanted, room)])
            }
            Command::Tell { station } => {
                let (phase, sent, elapsed) = net.tell(station);
                let telling = Telling {
                    phase,
                    sent,
                    elapsed,
                };
                return tell_line(self.out, Line::Telling(telling));
            }
            _ => return Ok(()),
        };
        self.tell_answer(answer)
    }
}

// Plays a script on nets over the machine.
pub fn play<M: Machine + Copy + Drop, B: BufRead + Drop, W: Write>(
    heap: Global,
    machine: M,
    order: Order,
    paths: Vec<Path>,
    script: B,
    out: &mut W,
) -> Result<(), Broken> {
    let mut session = Session {
        machine,
        order,
        lists: Lists::of(heap, paths)?,
        net: None,
        out,
    };
    for (number, line) in (1..=u64::MAX).zip(script.lines(heap)) {
        let line = line?;
        let bad = |mistake| Broken::BadLine(number, mistake);
        match parse(&line).map_err(bad)? {
            Command::Nothing => {}
            Command::Paths => {
                let paths = script::paths(heap, &line).map_err(bad)?;
                session.lists = Lists::of(heap, paths)?;
            }
            Command::Make { parts, slots } => session.make(parts, slots)?,
            command => session.call(number, command)?,
        }
    }
    Ok(())
}
