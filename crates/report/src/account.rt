// An account of a book whose structure is sound: its kind and order, and how many records of each
// kind belong to which station.
use book::bytes::{byte_at, row_of, two_at};
use book::record::{AutomatonBody, ModelBody};
use book::term::{BookKind, Order};
use links::link::Linked;
use std::alloc::{AllocError, Global};
use std::fmt;
use visits::visit::followed;

// What the stations of a kind of book, and what belongs to them, are called.
trait Named: Linked {
    const STATION: &'static str;

    const PHASE: &'static str;

    const EDGE: &'static str;

    // nothing where the phases have no words
    const WORD: Option<&'static str>;
}

impl Named for ModelBody {
    const STATION: &'static str = "station";

    const PHASE: &'static str = "phase";

    const EDGE: &'static str = "edge";

    const WORD: Option<&'static str> = Some("word");
}

impl Named for AutomatonBody {
    const STATION: &'static str = "automaton";

    const PHASE: &'static str = "location";

    const EDGE: &'static str = "transition";

    const WORD: Option<&'static str> = None;
}

// How many records the chains have that begin at byte `field` of the records of a chain.
fn count_below<R: Linked>(book: &[u8], first: u16, field: u8) -> usize {
    followed::<R>(book, first)
        .map(|record| followed::<R>(book, two_at(row_of(book, record), field)).count())
        .fold(0, usize::saturating_add)
}

// A number of things, with an s unless it is one.
#[derive(Clone, Copy)]
struct Counted {
    count: usize,
    thing: &'static str,
}

impl fmt::Display for Counted {
    fn fmt<W: fmt::Write>(&self, f: &mut fmt::Formatter<W>) -> fmt::Result {
        let plural = if self.count == 1 { "" } else { "s" };
        write!(f, "{} {}{plural}", self.count, self.thing)
    }
}

// The kind of a book, its order and its number of records.
#[derive(Clone, Copy)]
pub(super) struct HeadLine<'a> {
    pub(super) kind: BookKind,
    pub(super) book: &'a [u8],
}

impl fmt::Display for HeadLine<'_> {
    fn fmt<W: fmt::Write>(&self, f: &mut fmt::Formatter<W>) -> fmt::Result {
        let name = match self.kind {
            BookKind::Model => "model book",
            BookKind::Automaton => "automaton book",
        };
        // Stays: three cases with a text each.
        let order = match Order::try_from(byte_at(self.book, 4)) {
            Ok(Order::StepFirst) => "step first",
            Ok(Order::WordFirst) => "word first",
            Err(_) => "no order",
        };
        let records = Counted {
            count: usize::from(two_at(self.book, 2)),
            thing: "record",
        };
        write!(f, "{name}, {order}, {records}")
    }
}

// The same as a text of its own.
pub fn head_line(heap: Global, kind: BookKind, book: &[u8]) -> Result<String, AllocError> {
    format!(in heap; "{}", HeadLine { kind, book })
}

// A station's record, its number from 1, and what belongs to it.
fn write_station<R: Named, W: fmt::Write>(
    f: &mut fmt::Formatter<W>,
    book: &[u8],
    record: u16,
    number: usize,
) -> fmt::Result {
    let first = two_at(row_of(book, record), 4);
    let phases = Counted {
        count: followed::<R>(book, first).count(),
        thing: R::PHASE,
    };
    let edges = Counted {
        count: count_below::<R>(book, first, 4),
        thing: R::EDGE,
    };
    write!(
        f,
        "{} {number} (record {record}): {phases}, {edges}",
        R::STATION
    )?;
    if let Some(thing) = R::WORD {
        let count = count_below::<R>(book, first, 8);
        write!(f, ", {}", Counted { count, thing })?;
    }
    f.write_str("\n")
}

// A line for each station, in the order of their chain, and the number of paths.
fn write_stations<R: Named, W: fmt::Write>(f: &mut fmt::Formatter<W>, book: &[u8]) -> fmt::Result {
    for (i, record) in followed::<R>(book, two_at(book, 6)).enumerate() {
        write_station::<R, W>(f, book, record, i.saturating_add(1))?;
    }
    let paths = Counted {
        count: followed::<R>(book, two_at(book, 8)).count(),
        thing: "path",
    };
    writeln!(f, "{paths}")
}

// A book's account.
#[derive(Clone, Copy)]
struct AccountText<'a> {
    kind: BookKind,
    book: &'a [u8],
}

impl fmt::Display for AccountText<'_> {
    fn fmt<W: fmt::Write>(&self, f: &mut fmt::Formatter<W>) -> fmt::Result {
        let head = HeadLine {
            kind: self.kind,
            book: self.book,
        };
        writeln!(f, "{head}")?;
        match self.kind {
            BookKind::Model => write_stations::<ModelBody, W>(f, self.book),
            BookKind::Automaton => write_stations::<AutomatonBody, W>(f, self.book),
        }
    }
}

// The account of a book of that kind.
pub fn account(heap: Global, kind: BookKind, book: &[u8]) -> Result<String, AllocError> {
    format!(in heap; "{}", AccountText { kind, book })
}
