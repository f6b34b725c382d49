// Refusals: what is declined, and where.
ghost use Rattle.std.specs.Prelude.{◌≡◌, MatchResult, ◌≢◌};
ghost use Rattle.book.specs.declared.refusal.Fault.{Fault as Faults};
ghost use Rattle.book.specs.Refusals.{fault_number, refused};

use std::error::Error;
use std::fmt;

// What a book or a call is declined for. docs/REFUSALS.md has each one's condition and place.
#[derive(Clone, Copy, PartialEq, Eq, Debug)]
pub enum Fault {
    // the book's length is not that of its records
    Length,
    // the head's kind, version, order or number of records
    Head,
    // a kind, mark, label, reset or zero byte of a record
    Layout,
    // an index that leads astray, a record not named once or not reached
    Links,
    // a goal, opening or next phase outside the station
    Goals,
    // a number or a count out of its range
    Limits,
    // a scale over 1,000,000
    Scale,
    // a window or guard that holds no time
    EmptyWindow,
    // two edges or hearing transitions share port, value and moment
    SharedMoment,
    // a path with wrong ends
    Paths,
    // a location that is not as printing writes one
    Location,
    // event slots, a list or a buffer too short
    Room,
    // parts per net tick out of range
    Parts,
    // a wait or a word while a station is busy
    Busy,
    // a word while a station is due, under step first
    Due,
    // a wait past a lifetime
    Lifetime,
    // the total of all waits over its limit
    Total,
    // a step with no station busy or due
    Idle,
}

// The number by which a refusal is told.
impl From<Fault> for u8 {
    ghost from_gives = { λ fault number. number ≡ fault_number fault };

    fn from(fault: Fault) -> u8 {
        match fault {
            Fault::Length => 1,
            Fault::Head => 2,
            Fault::Layout => 3,
            Fault::Links => 4,
            Fault::Goals => 5,
            Fault::Limits => 6,
            Fault::Scale => 7,
            Fault::EmptyWindow => 8,
            Fault::SharedMoment => 9,
            Fault::Paths => 10,
            Fault::Location => 11,
            Fault::Room => 12,
            Fault::Parts => 13,
            Fault::Busy => 14,
            Fault::Due => 15,
            Fault::Lifetime => 16,
            Fault::Total => 17,
            Fault::Idle => 18,
        }
    }
}

// A number that tells no fault.
#[derive(Clone, Copy, PartialEq, Eq, Debug)]
pub struct UnknownNumber(pub u8);

impl fmt::Display for UnknownNumber {
    fn fmt<W: fmt::Write>(&self, f: &mut fmt::Formatter<W>) -> fmt::Result {
        write!(f, "no fault has the number {}", self.0)
    }
}

impl Error for UnknownNumber {}

impl TryFrom<u8> for Fault {
    type Error = UnknownNumber;

    ghost try_from_gives = { λ number answer. MatchResult answer (λ fault. fault_number fault ≡ number) (λ e. (e.0 ≡ number) × ((fault : Faults) → fault_number fault ≢ number)) };

    fn try_from(number: u8) -> Result<Fault, UnknownNumber> {
        match number {
            1 => Ok(Fault::Length),
            2 => Ok(Fault::Head),
            3 => Ok(Fault::Layout),
            4 => Ok(Fault::Links),
            5 => Ok(Fault::Goals),
            6 => Ok(Fault::Limits),
            7 => Ok(Fault::Scale),
            8 => Ok(Fault::EmptyWindow),
            9 => Ok(Fault::SharedMoment),
            10 => Ok(Fault::Paths),
            11 => Ok(Fault::Location),
            12 => Ok(Fault::Room),
            13 => Ok(Fault::Parts),
            14 => Ok(Fault::Busy),
            15 => Ok(Fault::Due),
            16 => Ok(Fault::Lifetime),
            17 => Ok(Fault::Total),
            18 => Ok(Fault::Idle),
            _ => Err(UnknownNumber(number)),
        }
    }
}

// What is wrong, as the end of a sentence that names the place.
impl fmt::Display for Fault {
    fn fmt<W: fmt::Write>(&self, f: &mut fmt::Formatter<W>) -> fmt::Result {
        f.write_str(match self {
            Fault::Length => "the length is not 32 bytes for the head and for each of its records",
            Fault::Head => "the head's kind, version, order or number of records is wrong",
            Fault::Layout => "a kind, mark, label, reset byte or zero byte is wrong",
            Fault::Links => {
                "an index goes past the end or to another kind, or the record is not named exactly once or not reached from the head"
            }
            Fault::Goals =>
                "a goal, opening or next phase is missing, not wanted or outside the station",
            Fault::Limits =>
                "a number is out of its range, or there are too many stations, phases or words",
            Fault::Scale => "the scale is over 1,000,000",
            Fault::EmptyWindow =>
                "the window that counts, or the guard up to the bound, holds no time",
            Fault::SharedMoment => "two edges or hearing transitions share port, value and moment",
            Fault::Paths =>
                "a path has an unknown station, one station twice, or no station at all",
            Fault::Location =>
                "the location's marks, move, resets or move guard are not as printing writes them",
            Fault::Room => "there is too little room",
            Fault::Parts => "the parts per net tick are not 1 to 1,000",
            Fault::Busy => "a station is busy",
            Fault::Due => "a station is due, and steps come first",
            Fault::Lifetime => "a lifetime would be passed",
            Fault::Total => "the total of all waits would be over its limit",
            Fault::Idle => "no station is busy or due",
        })
    }
}

impl Fault {
    // The refusal for this fault at a place.
    pub fn at(self, place: usize) -> Refusal
        ensures { result ≡ refused self place }
    {
        Refusal { fault: self, place }
    }
}

// A refusal: its fault, and the place: a record, a station, a position in a list, or 0.
#[derive(Clone, Copy, PartialEq, Eq, Debug)]
pub struct Refusal {
    pub fault: Fault,
    pub place: usize,
}

// A fault of a whole book, of a head, of a list or of a buffer has no place but 0.
impl From<Fault> for Refusal {
    ghost from_gives = { λ fault refusal. refusal ≡ refused fault 0 };

    fn from(fault: Fault) -> Refusal {
        fault.at(0)
    }
}
