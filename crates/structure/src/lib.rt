// The structure of a book: its length, its head, the layout of its records, and their links.

#![tactic(auto)]

ghost use Rattle.std.specs.Prelude.{◌≡◌, ◌+◌, ◌*◌, length, is_some};
ghost use Rattle.records.specs.Fields.{decoded_by};
ghost use Rattle.structure.specs.Examples.{ExamplesStand};
ghost use Rattle.structure.specs.Faults.{told_records, wrong_length, wrong_head};
ghost use Rattle.structure.specs.Rewritten.{SoundBooksRewritten};
ghost use Rattle.structure.specs.Search.{SearchFindsSmallest};
ghost use Rattle.structure.specs.Sound.{PassesSound};
ghost use Rattle.structure.specs.Structure.{structure_by, structure_of};

pub mod contents;
mod layout;
mod linking;
pub mod refuse;
mod rule;

use book::bytes::{byte_at, two_at};
use book::record::{AutomatonBody, ModelBody};
use book::refusal::{Fault, Refusal};
use book::term::{BookKind, Order};
use layout::is_unlaid;
use linking::check_links;
use links::link::Linked;
use records::rows::Rows;
use refuse::{refuse, whole_book};
use rule::first_broken;

fn has_wrong_length(book: &[u8]) -> bool
    ensures { result ≡ wrong_length book.now }
{
    book.len() < 64 || book.len() != 32 * (usize::from(two_at(book, 2)) + 1)
}

fn has_wrong_head(kind: BookKind, book: &[u8]) -> bool
    ensures { result ≡ wrong_head kind book.now }
{
    let n = two_at(book, 2);
    byte_at(book, 1) != 1
        || Order::try_from(byte_at(book, 4)).is_err()
        || n == 0
        || n > kind.most_records()
}

// The structure of a book whose length is right, by the records of its kind.
fn structure_by<R: Rows + Linked>(book: &[u8]) -> Result<BookKind, Refusal>
    requires { length book.now ≡ 32 * (told_records book.now + 1) }
    ensures { result ≡ structure_by R.Rows.kind (λ row. is_some (decoded_by R.Rows.body row)) R.Linked.links book.now }
{
    let kind = R::kind();
    let n = two_at(book, 2);
    refuse(Fault::Head, whole_book(has_wrong_head(kind, book)))?;
    refuse(Fault::Layout, first_broken(n, |i| is_unlaid::<R>(book, i)))?;
    check_links::<R>(book, n)?;
    Ok(kind)
}

// The kind of a book whose length, head, layout and links are right, or the first refusal.
pub fn structure(book: &[u8]) -> Result<BookKind, Refusal>
    ensures { result ≡ structure_of book.now }
{
    refuse(Fault::Length, whole_book(has_wrong_length(book)))?;
    match BookKind::try_from(byte_at(book, 0))? {
        BookKind::Model => structure_by::<ModelBody>(book),
        BookKind::Automaton => structure_by::<AutomatonBody>(book),
    }
}

// A refusal's place is the smallest record that breaks the rule.
pub fn search_finds_smallest()
    ensures { SearchFindsSmallest }
{}

// The books that pass are just the sound ones.
pub fn passes_sound()
    ensures { PassesSound }
{}

// The relay's book and some damaged copies of it, by evaluation of the definitions.
pub fn examples_stand()
    ensures { ExamplesStand }
{}

// A book that passes, read record by record and written again, has the same bytes.
pub fn sound_books_rewritten()
    ensures { SoundBooksRewritten }
{}
