// The links of a book's records: what they name, how often, and what is reached.
ghost use Rattle.std.specs.Prelude.{◌≡◌, ℕ, ◌+◌, ◌*◌, ◌<◌, ◌≤◌, length, Ok, slice_index};
ghost use Rattle.book.specs.declared.refusal.Fault.TheVariants.{Links};
ghost use Rattle.links.specs.Fields.{links_of};
ghost use Rattle.structure.specs.Faults.{told_records, wrong_link, some_link};
ghost use Rattle.structure.specs.Structure.{unless, first_ill_linked};
ghost use Rattle.structure.specs.Tables.{CountedOn, Counted, ill_linked_by};

use super::refuse::refuse;
use super::rule::first_broken;
use book::bytes::{byte_at, row_of};
use book::refusal::{Fault, Refusal};
use links::link::{Link, Linked, links_of};
use links::reach::reach;

// Slots for the head and for as many records as a book may have.
const SLOTS: usize = 2001;

// Whether an index field goes past the last record n, or to a record of another kind.
fn is_wrong(book: &[u8], n: u16, link: Link) -> bool
    ensures { result ≡ wrong_link book.now n link }
{
    link.to != 0 && (link.to > n || byte_at(row_of(book, link.to), 0) != u8::from(link.kind))
}

fn any_is_wrong(book: &[u8], n: u16, links: &[Link]) -> bool
    ensures { result ≡ some_link (wrong_link book.now n) links.now }
{
    links.iter().any(|link| is_wrong(book, n, *link))
}

// Each count goes up by how often the index fields name its record.
fn count_on(counts: &mut [u16], links: &[Link])
    requires { (j : ℕ) → slice_index counts.old j + length links.now < 65536 }
    ensures { CountedOn counts.old links.now counts.new }
{
    for link in links {
        let record = usize::from(link.to);
        if record < counts.len() {
            counts[record] += 1;
        }
    }
}

// How often each record is named, by the index fields of the head and of n records.
fn count_names<R: Linked>(book: &[u8], n: u16) -> [u16; SLOTS]
    requires { n ≤ 2000 }
    ensures { Counted (links_of R.Linked.links book.now) n result }
{
    // Stays: the check uses no heap, so that the counts are a table of the call.
    let mut counts = [0; SLOTS];
    // Stays: record numbers are counted here, and no list is indexed by them.
    for i in 0..n + 1 {
        count_on(&mut counts, &links_of::<R>(book, i));
    }
    counts
}

// Of each record, how often it is named, and whether it is reached.
#[derive(Clone, Copy)]
struct Tables {
    // Stays: the check uses no heap, and `reach` marks a lent list of flags alone, so that these are
    // two tables of the call.
    counts: [u16; SLOTS],
    marks: [bool; SLOTS],
}

// Whether an index field of record i leads astray, or it is not named exactly once, or not reached.
fn is_ill_linked<R: Linked>(book: &[u8], n: u16, tables: &Tables, i: u16) -> bool
    ensures { result ≡ ill_linked_by (links_of R.Linked.links book.now) book.now n tables.now.counts tables.now.marks i }
{
    let links = links_of::<R>(book, i);
    let record = usize::from(i);
    let is_named_once = tables.counts.get(record).copied().unwrap_or(0) == 1;
    let is_reached = tables.marks.get(record).copied().unwrap_or(false);
    any_is_wrong(book, n, &links) || i != 0 && (!is_named_once || !is_reached)
}

// Refuses the smallest record of a book of n records that is linked wrongly.
pub fn check_links<R: Linked>(book: &[u8], n: u16) -> Result<(), Refusal>
    requires long { length book.now ≡ 32 * (n + 1) }
    requires told { n ≡ told_records book.now }
    requires few { n ≤ 2000 }
    ensures { result ≡ unless (first_ill_linked R.Linked.links book.now) Links (Ok tt) }
{
    // Stays: the check uses no heap.
    let mut list = [0; SLOTS];
    let mut marks = [false; SLOTS];
    reach::<R>(book, &mut list, &mut marks)?;
    let tables = Tables {
        counts: count_names::<R>(book, n),
        marks,
    };
    let found = first_broken(n, |i| is_ill_linked::<R>(book, n, &tables, i));
    refuse(Fault::Links, found)
}
