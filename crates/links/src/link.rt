// Index fields, and the kinds of record that have them.
ghost use Rattle.std.specs.Prelude.{◌≡◌, ℕ, List};
ghost use Rattle.book.specs.Chains.{next_index};
ghost use Rattle.links.specs.declared.link.Link.{Link};
ghost use Rattle.links.specs.Fields.{link, model_links, automaton_links, head_links, links_of};

use book::bytes::{byte_at, row_of, take_apart, two_at};
use book::record::{AutomatonBody, ModelBody};
use book::term::Kind;

// An index field, with the kind of record that it should name. An index of 0 names nothing.
#[derive(Clone, Copy)]
pub struct Link {
    pub to: u16,
    pub kind: Kind,
}

impl Link {
    // Stands for a field that a record lacks.
    const NONE: Link = Link {
        to: 0,
        kind: Kind::Station,
    };

    fn new(to: u16, kind: Kind) -> Link
        ensures { result ≡ link to kind }
    {
        Link { to, kind }
    }
}

// A kind of record that names others by index fields, and that is chained by a next index.
pub trait Linked {
    // the index fields of a record's 32 bytes
    ghost links: { List ℕ → List Link };

    fn links(row: &[u8]) -> [Link; 3]
        ensures { result ≡ links row.now };

    // The next record of the chain; 0 where there is none.
    fn next(row: &[u8]) -> u16
        ensures { result ≡ next_index row.now }
    {
        match take_apart(row) {
            Some(parts) => parts.next,
            None => two_at(row, 2),
        }
    }
}

// Stays: each kind of book has its own table of index fields, as the format gives it; a common part
// with two exceptions would be longer than the two tables.
impl Linked for ModelBody {
    ghost links = { model_links };

    fn links(row: &[u8]) -> [Link; 3] {
        let next = Self::next(row);
        match Kind::try_from(byte_at(row, 0)) {
            Ok(Kind::Station) => [
                Link::new(next, Kind::Station),
                Link::new(two_at(row, 4), Kind::Phase),
                Link::NONE,
            ],
            Ok(Kind::Phase) => [
                Link::new(next, Kind::Phase),
                Link::new(two_at(row, 4), Kind::Edge),
                Link::new(two_at(row, 8), Kind::Word),
            ],
            Ok(Kind::Edge) => [Link::new(next, Kind::Edge), Link::NONE, Link::NONE],
            Ok(Kind::Word) => [Link::new(next, Kind::Word), Link::NONE, Link::NONE],
            Ok(Kind::Path) => [Link::new(next, Kind::Path), Link::NONE, Link::NONE],
            // Stays: a row of the table.
            Err(_) => [Link::NONE; 3],
        }
    }
}

impl Linked for AutomatonBody {
    ghost links = { automaton_links };

    fn links(row: &[u8]) -> [Link; 3] {
        let next = Self::next(row);
        match Kind::try_from(byte_at(row, 0)) {
            Ok(Kind::Station) => [
                Link::new(next, Kind::Station),
                Link::new(two_at(row, 4), Kind::Phase),
                Link::NONE,
            ],
            Ok(Kind::Phase) => [
                Link::new(next, Kind::Phase),
                Link::new(two_at(row, 4), Kind::Edge),
                Link::NONE,
            ],
            Ok(Kind::Edge) => [Link::new(next, Kind::Edge), Link::NONE, Link::NONE],
            Ok(Kind::Path) => [Link::new(next, Kind::Path), Link::NONE, Link::NONE],
            Ok(Kind::Word) | Err(_) => [Link::NONE; 3],
        }
    }
}

// The index fields of the head: the first station or automaton, and the first path.
fn head_links(row: &[u8]) -> [Link; 3]
    ensures { result ≡ head_links row.now }
{
    [
        Link::new(two_at(row, 6), Kind::Station),
        Link::new(two_at(row, 8), Kind::Path),
        Link::NONE,
    ]
}

// The index fields of record i of a book; the head is record 0.
pub fn links_of<R: Linked>(book: &[u8], i: u16) -> [Link; 3]
    ensures { result ≡ links_of R.Linked.links book.now i }
{
    let row = row_of(book, i);
    if i == 0 {
        head_links(row)
    } else {
        R::links(row)
    }
}
