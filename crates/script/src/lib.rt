// The lines of a script: one call of a session to a line. What is accepted is in examples/README.md,
// and is tested; the functions are proved to be safe and to end.

#![tactic(auto)]

use book::term::Path;
use std::alloc::{AllocError, AllocFailed, Global};
use std::error::Error;
use std::fmt;
use std::str::FromStr;

// A call of a session. Without slots there is room enough.
#[derive(Clone, Copy, PartialEq, Eq, Debug)]
pub enum Command {
    // an empty line, or only a comment
    Nothing,
    Make {
        parts: u64,
        slots: Option<usize>,
    },
    Wait {
        parts: u64,
    },
    Word {
        port: u8,
        value: u8,
        slots: Option<usize>,
    },
    Step {
        slots: Option<usize>,
    },
    Tell {
        station: usize,
    },
    // other paths from then on; `paths` reads them
    Paths,
}

// What is wrong with a line.
#[derive(Clone, Copy, PartialEq, Eq, Debug)]
pub enum Mistake {
    UnknownCall,
    MissingNumber,
    BadNumber,
    TooMuch,
    BadPath,
    OutOfMemory,
}

impl Mistake {
    // The same in words.
    pub fn text(self) -> &'static str {
        match self {
            Mistake::UnknownCall => "there is no such call: make, wait, word, step, tell or paths",
            Mistake::MissingNumber => "a number is missing",
            Mistake::BadNumber => "this is no number, or it is too large",
            Mistake::TooMuch => "there is more on the line than the call takes",
            Mistake::BadPath =>
                "a path is four numbers from 0 to 255 with commas between, as 0,1,1,1",
            Mistake::OutOfMemory => "there is no memory left",
        }
    }
}

impl fmt::Display for Mistake {
    fn fmt<W: fmt::Write>(&self, f: &mut fmt::Formatter<W>) -> fmt::Result {
        f.write_str(self.text())
    }
}

impl Error for Mistake {}

impl From<AllocError> for Mistake {
    fn from(_: AllocError) -> Mistake {
        Mistake::OutOfMemory
    }
}

impl<T: Drop> From<AllocFailed<T>> for Mistake {
    fn from(_: AllocFailed<T>) -> Mistake {
        Mistake::OutOfMemory
    }
}

// The line up to its comment.
fn without_comment(line: &str) -> &str {
    line.split_once('#').map_or(line, |(call, _)| call)
}

fn number<T: FromStr + Drop>(word: Option<&str>) -> Result<T, Mistake>
where
    T::Err: Drop,
{
    word.ok_or(Mistake::MissingNumber)?
        .parse::<T>()
        .map_err(|_| Mistake::BadNumber)
}

fn slots(word: Option<&str>) -> Result<Option<usize>, Mistake> {
    word.map(|digits| number(Some(digits))).transpose()
}

// The call on a line.
pub fn parse(line: &str) -> Result<Command, Mistake> {
    let mut words = without_comment(line).split_whitespace();
    let Some(name) = words.next() else {
        return Ok(Command::Nothing);
    };
    let command = match name {
        "make" => Command::Make {
            parts: number(words.next())?,
            slots: slots(words.next())?,
        },
        "wait" => Command::Wait {
            parts: number(words.next())?,
        },
        "word" => Command::Word {
            port: number(words.next())?,
            value: number(words.next())?,
            slots: slots(words.next())?,
        },
        "step" => Command::Step {
            slots: slots(words.next())?,
        },
        "tell" => Command::Tell {
            station: number(words.next())?,
        },
        "paths" => return Ok(Command::Paths),
        _ => return Err(Mistake::UnknownCall),
    };
    if words.next().is_some() {
        return Err(Mistake::TooMuch);
    }
    Ok(command)
}

fn part(word: Option<&str>) -> Result<u8, Mistake> {
    number(word).map_err(|_| Mistake::BadPath)
}

// A path: sending station, its port, hearing station, its port.
fn path(word: &str) -> Result<Path, Mistake> {
    let mut parts = word.split(',');
    let path = Path {
        sender: part(parts.next())?,
        sender_port: part(parts.next())?,
        hearer: part(parts.next())?,
        hearer_port: part(parts.next())?,
    };
    match parts.next() {
        Some(_) => Err(Mistake::BadPath),
        None => Ok(path),
    }
}

// The paths on a line that begins with `paths`.
pub fn paths(heap: Global, line: &str) -> Result<Vec<Path>, Mistake> {
    let mut list = Vec::new(heap);
    for word in without_comment(line).split_whitespace().skip(1) {
        list.push(path(word)?)?;
    }
    Ok(list)
}
