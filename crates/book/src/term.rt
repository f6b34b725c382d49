// Kinds of book and of record, the order of a net, and paths.
ghost use Rattle.std.specs.Prelude.{◌≡◌};
ghost use Rattle.std.specs.Option.{ok_or};
ghost use Rattle.book.specs.declared.refusal.Fault.TheVariants.{Head, Layout};
ghost use Rattle.book.specs.Terms.{book_byte, book_of_byte, most_records, order_byte, order_of_byte, kind_byte, kind_of_byte, wrong_ends};

use super::refusal::Fault;

// The two kinds of book.
#[derive(Clone, Copy, PartialEq, Eq, Debug)]
pub enum BookKind {
    // a net of station models
    Model,
    // a net of timed automata
    Automaton,
}

// Byte 0 of the head.
impl From<BookKind> for u8 {
    ghost from_gives = { λ kind byte. byte ≡ book_byte kind };

    fn from(kind: BookKind) -> u8 {
        match kind {
            BookKind::Model => 77,
            BookKind::Automaton => 65,
        }
    }
}

impl TryFrom<u8> for BookKind {
    type Error = Fault;

    ghost try_from_gives = { λ byte answer. answer ≡ ok_or (book_of_byte byte) Head };

    fn try_from(byte: u8) -> Result<BookKind, Fault> {
        match byte {
            77 => Ok(BookKind::Model),
            65 => Ok(BookKind::Automaton),
            _ => Err(Fault::Head),
        }
    }
}

impl BookKind {
    // The most records that a book of this kind has behind its head.
    pub fn most_records(self) -> u16
        ensures { result ≡ most_records self }
    {
        match self {
            BookKind::Model => 1000,
            BookKind::Automaton => 2000,
        }
    }
}

// What comes first where a station is due and a word arrives at one moment.
#[derive(Clone, Copy, PartialEq, Eq, Debug)]
pub enum Order {
    StepFirst,
    WordFirst,
}

// Byte 4 of the head.
impl From<Order> for u8 {
    ghost from_gives = { λ order byte. byte ≡ order_byte order };

    fn from(order: Order) -> u8 {
        match order {
            Order::StepFirst => 0,
            Order::WordFirst => 1,
        }
    }
}

impl TryFrom<u8> for Order {
    type Error = Fault;

    ghost try_from_gives = { λ byte answer. answer ≡ ok_or (order_of_byte byte) Head };

    fn try_from(byte: u8) -> Result<Order, Fault> {
        match byte {
            0 => Ok(Order::StepFirst),
            1 => Ok(Order::WordFirst),
            _ => Err(Fault::Head),
        }
    }
}

// The kinds of record, by the names that they have in a model book. In an automaton book a
// station is an automaton, a phase a location, an edge a transition, and there are no words.
#[derive(Clone, Copy, PartialEq, Eq, Debug)]
pub enum Kind {
    Station,
    Phase,
    Edge,
    Word,
    Path,
}

// Byte 0 of a record.
impl From<Kind> for u8 {
    ghost from_gives = { λ kind byte. byte ≡ kind_byte kind };

    fn from(kind: Kind) -> u8 {
        match kind {
            Kind::Station => 1,
            Kind::Phase => 2,
            Kind::Edge => 3,
            Kind::Word => 4,
            Kind::Path => 5,
        }
    }
}

impl TryFrom<u8> for Kind {
    type Error = Fault;

    ghost try_from_gives = { λ byte answer. answer ≡ ok_or (kind_of_byte byte) Layout };

    fn try_from(byte: u8) -> Result<Kind, Fault> {
        match byte {
            1 => Ok(Kind::Station),
            2 => Ok(Kind::Phase),
            3 => Ok(Kind::Edge),
            4 => Ok(Kind::Word),
            5 => Ok(Kind::Path),
            _ => Err(Fault::Layout),
        }
    }
}

// A path: what the sending station sends on its port, the hearing station hears on its own.
// Stations count from 1; 0 is the outside.
#[derive(Clone, Copy, PartialEq, Eq, Debug)]
pub struct Path {
    pub sender: u8,
    pub sender_port: u8,
    pub hearer: u8,
    pub hearer_port: u8,
}

impl Path {
    // Whether it has a station that a net with so many stations lacks, the same station twice, or
    // goes from outside to outside.
    pub fn has_wrong_ends(self, stations: usize) -> bool
        ensures { result ≡ wrong_ends stations self }
    {
        usize::from(self.sender) > stations
            || usize::from(self.hearer) > stations
            || self.sender == self.hearer
    }
}
