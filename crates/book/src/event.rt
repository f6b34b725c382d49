// Events: what a net tells of each call.
ghost use Rattle.std.specs.Prelude.{◌≡◌};
ghost use Rattle.std.specs.Option.{ok_or};
ghost use Rattle.book.specs.Events.{event_letter, event_of_letter, unknown_letter};

use std::error::Error;
use std::fmt;

// What happened.
#[derive(Clone, Copy, PartialEq, Eq, Debug)]
pub enum EventKind {
    // a word arrives at a station's port, or outside
    Arrival,
    // the external transition: a station hears the word and takes a new stance
    External,
    // the output: a station sends a word
    Output,
    // the internal transition: a station's move has ended in a quiet stance
    Internal,
    // a station is there, at the making of a net
    Created,
}

// The letter by which an event is told.
impl From<EventKind> for char {
    ghost from_gives = { λ kind letter. letter ≡ event_letter kind };

    fn from(kind: EventKind) -> char {
        match kind {
            EventKind::Arrival => '?',
            EventKind::External => 'E',
            EventKind::Output => 'O',
            EventKind::Internal => 'I',
            EventKind::Created => 'C',
        }
    }
}

// A letter that tells no event.
#[derive(Clone, Copy, PartialEq, Eq, Debug)]
pub struct UnknownLetter(pub char);

impl fmt::Display for UnknownLetter {
    fn fmt<W: fmt::Write>(&self, f: &mut fmt::Formatter<W>) -> fmt::Result {
        write!(f, "no event has the letter {}", self.0)
    }
}

impl Error for UnknownLetter {}

impl TryFrom<char> for EventKind {
    type Error = UnknownLetter;

    ghost try_from_gives = { λ letter answer. answer ≡ ok_or (event_of_letter letter) (unknown_letter letter) };

    fn try_from(letter: char) -> Result<EventKind, UnknownLetter> {
        match letter {
            '?' => Ok(EventKind::Arrival),
            'E' => Ok(EventKind::External),
            'O' => Ok(EventKind::Output),
            'I' => Ok(EventKind::Internal),
            'C' => Ok(EventKind::Created),
            _ => Err(UnknownLetter(letter)),
        }
    }
}

// An event. Of an arrival outside the station is 0; of E, I and C the port is 0 and the value is
// the new phase, which has two bytes.
#[derive(Clone, Copy, PartialEq, Eq, Debug)]
pub struct Event {
    pub kind: EventKind,
    pub station: u8,
    pub port: u8,
    pub value: u16,
}
