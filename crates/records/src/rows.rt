// What the records of a kind of book have in common.
ghost use Rattle.std.specs.Prelude.{◌≡◌, ℕ, List, length, Option};
ghost use Rattle.book.specs.declared.term.BookKind.{BookKind};
ghost use Rattle.book.specs.declared.record.Record.{Record};
ghost use Rattle.records.specs.Fields.{decoded_by};
ghost use Rattle.records.specs.Returns.{ModelRecordsReturn, AutomatonRecordsReturn, ModelBooksReturn, AutomatonBooksReturn};

use book::bytes::{Parts, take_apart};
use book::record::Record;
use book::term::BookKind;

// The bodies of the records of one kind of book.
pub trait Rows: Copy {
    // the kind of book
    ghost kind: { BookKind };

    // what a record holds, by its kind, its marks and its bytes behind the next index; nothing where
    // the layout does not hold
    ghost body: { ℕ → ℕ → List ℕ → Option Self };

    // the 32 bytes of a record
    ghost encoded: { Record Self → List ℕ };

    fn kind() -> BookKind
        ensures { result ≡ kind };

    fn body_in(parts: &Parts<'_>) -> Option<Self>
        ensures { result ≡ body parts.now.kind parts.now.marks parts.now.rest.now };

    // A row of 32 bytes as a record, or nothing where the layout does not hold.
    fn decode(bytes: &[u8]) -> Option<Record<Self>>
        ensures { result ≡ decoded_by body bytes.now }
    {
        let parts = take_apart(bytes)?;
        Some(Record {
            next: parts.next,
            body: Self::body_in(&parts)?,
        })
    }

    fn encode(item: Record<Self>) -> [u8; 32]
        ensures { result ≡ encoded item };

    // every row has 32 bytes
    ghost long: { (x : Record Self) → length (encoded x) ≡ 32 };
}

// Model records and books come back, written and read, and read and written.
pub fn model_books_return()
    ensures records { ModelRecordsReturn }
    ensures books { ModelBooksReturn }
{}

// Automaton records and books come back, written and read, and read and written.
pub fn automaton_books_return()
    ensures records { AutomatonRecordsReturn }
    ensures books { AutomatonBooksReturn }
{}
