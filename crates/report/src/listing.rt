// A book's records, one to a line, each with its fields by name.
ghost use Rattle.std.specs.Prelude.{IfOk, Some, string_bytes};
ghost use Rattle.report.specs.Lines.{refusal_line, Begins};

use super::account::HeadLine;
use super::told::Told;
use book::bytes::{byte_at, row_of, two_at};
use book::record::{AutomatonBody, ModelBody, Record};
use book::refusal::Refusal;
use book::term::BookKind;
use records::books::read;
use records::rows::Rows;
use std::alloc::{AllocError, Global};
use std::fmt;

// A record of a book, by its number.
#[derive(Clone, Copy)]
struct Numbered<'a> {
    kind: BookKind,
    book: &'a [u8],
    number: u16,
}

impl Numbered<'_> {
    // Its kind and fields, or its bytes where the layout does not hold.
    fn write_as<B: Rows, W: fmt::Write>(&self, f: &mut fmt::Formatter<W>) -> fmt::Result
    where
        Told<Record<B>>: fmt::Display,
    {
        // Stays: either arm writes, and a closure for each would not be shorter.
        match read::<B>(self.book, self.number) {
            Ok(record) => write!(f, "{}", Told(record)),
            Err(_) => write!(f, "{}", Told(row_of(self.book, self.number))),
        }
    }
}

impl fmt::Display for Numbered<'_> {
    fn fmt<W: fmt::Write>(&self, f: &mut fmt::Formatter<W>) -> fmt::Result {
        match self.kind {
            BookKind::Model => self.write_as::<ModelBody, W>(f),
            BookKind::Automaton => self.write_as::<AutomatonBody, W>(f),
        }
    }
}

// The head and every record that lies in the bytes.
#[derive(Clone, Copy)]
struct ListingText<'a> {
    kind: BookKind,
    book: &'a [u8],
}

impl fmt::Display for ListingText<'_> {
    fn fmt<W: fmt::Write>(&self, f: &mut fmt::Formatter<W>) -> fmt::Result {
        let ListingText { kind, book } = *self;
        let head = HeadLine { kind, book };
        let station = two_at(book, 6);
        let path = two_at(book, 8);
        writeln!(
            f,
            "head: {head}, first station {station}, first path {path}"
        )?;
        let last = two_at(book, 2).min(kind.most_records());
        // Stays: record numbers are counted here, and no list is indexed by them.
        for number in 1..=last {
            let record = Numbered { kind, book, number };
            writeln!(f, "{number} {record}")?;
        }
        Ok(())
    }
}

// The head and every record that lies in the bytes, one to a line.
pub fn listing(heap: Global, kind: BookKind, book: &[u8]) -> Result<String, AllocError> {
    format!(in heap; "{}", ListingText { kind, book })
}

// A refusal as a line of its number and place.
#[derive(Clone, Copy)]
struct RefusalLine(Refusal);

impl fmt::Display for RefusalLine {
    ghost output = { λ line. Some (refusal_line line.0) };

    fn fmt<W: fmt::Write>(&self, f: &mut fmt::Formatter<W>) -> fmt::Result {
        writeln!(f, "- {} {}", u8::from(self.0.fault), self.0.place)
    }
}

// What a refusal of a book means, and what the record at its place holds.
#[derive(Clone, Copy)]
struct Meaning<'a> {
    book: &'a [u8],
    refusal: Refusal,
}

impl fmt::Display for Meaning<'_> {
    fn fmt<W: fmt::Write>(&self, f: &mut fmt::Formatter<W>) -> fmt::Result {
        let Meaning { book, refusal } = *self;
        let Refusal { fault, place } = refusal;
        if place == 0 {
            let size = book.len();
            let head = Told(row_of(book, 0));
            return write!(f, "the book: {fault}\n{size} bytes; head: {head}\n");
        }
        let record = Numbered {
            kind: BookKind::try_from(byte_at(book, 0)).unwrap_or(BookKind::Model),
            book,
            number: u16::try_from(place).unwrap_or(0),
        };
        write!(
            f,
            "record {place}: {fault}\nrecord {place} holds {record}\n"
        )
    }
}

// Stays: a public call that answers a text, whose contract says how that begins.
// A refusal as a line of its number and place, and a sentence that says what it means and what the
// record there holds.
pub fn refusal_text(heap: Global, book: &[u8], refusal: Refusal) -> Result<String, AllocError>
    ensures { IfOk result (λ t. Begins (refusal_line refusal) (string_bytes t)) }
{
    let line = RefusalLine(refusal).to_string(heap)?;
    let more = Meaning { book, refusal }.to_string(heap)?;
    format!(in heap; "{line}{more}")
}
