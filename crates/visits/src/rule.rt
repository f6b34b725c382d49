// Rules about records by where they stand, and the smallest record of a book that breaks one.
ghost use Rattle.std.specs.Prelude.{◌≡◌, ℕ, List};
ghost use Rattle.visits.specs.Smallest.{smallest};
ghost use Rattle.visits.specs.Visits.{Rule, edge_faults, word_faults, phase_faults, station_faults, faults};

use super::visit::{least_of, smallest_along};
use book::bytes::{row_of, two_at};
use links::link::Linked;

// A rule: whether a record breaks it, told where it stands. Places count from 0. There are no
// default answers, since `false` would not meet these clauses at every rule.
pub trait Rules {
    ghost rule: { Self → List ℕ → Rule };

    fn station(&self, book: &[u8], place: usize, s: u16) -> bool
        ensures { result ≡ (rule self.now book.now).station place s };

    fn phase(&self, book: &[u8], s: u16, place: usize, p: u16) -> bool
        ensures { result ≡ (rule self.now book.now).phase s place p };

    fn edge(&self, book: &[u8], s: u16, p: u16, e: u16) -> bool
        ensures { result ≡ (rule self.now book.now).edge s p e };

    fn word(&self, book: &[u8], place: usize, w: u16) -> bool
        ensures { result ≡ (rule self.now book.now).word place w };
}

// The smallest edge of a phase that breaks the rule.
fn edge_fault<R: Linked, L: Rules>(rule: &L, book: &[u8], s: u16, p: u16) -> Option<u16>
    ensures { result ≡ smallest (edge_faults book.now (L.Rules.rule rule.now book.now) s p) }
{
    let first = two_at(row_of(book, p), 4);
    smallest_along::<R, _>(book, first, |(_, e)| rule.edge(book, s, p, e).then_some(e))
}

// The smallest word of a phase that breaks it.
fn word_fault<R: Linked, L: Rules>(rule: &L, book: &[u8], p: u16) -> Option<u16>
    ensures { result ≡ smallest (word_faults book.now (L.Rules.rule rule.now book.now) p) }
{
    let first = two_at(row_of(book, p), 8);
    smallest_along::<R, _>(
        book,
        first,
        |(place, w)| rule.word(book, place, w).then_some(w),
    )
}

// The smallest record that breaks it among a phase, its edges and its words.
#[tactic(auto, using(crate::proofs::Least::of_record, crate::proofs::Least::smallest_append))]
fn phase_fault<R: Linked, L: Rules>(
    rule: &L,
    book: &[u8],
    s: u16,
    place: usize,
    p: u16,
) -> Option<u16>
    ensures { result ≡ smallest (phase_faults book.now (L.Rules.rule rule.now book.now) s place p) }
{
    let itself = rule.phase(book, s, place, p).then_some(p);
    let edges = edge_fault::<R, L>(rule, book, s, p);
    let words = word_fault::<R, L>(rule, book, p);
    least_of(itself, least_of(edges, words))
}

// The same of a station and its phases.
#[tactic(auto, using(crate::proofs::Least::of_record))]
fn station_fault<R: Linked, L: Rules>(rule: &L, book: &[u8], place: usize, s: u16) -> Option<u16>
    ensures { result ≡ smallest (station_faults book.now (L.Rules.rule rule.now book.now) place s) }
{
    let itself = rule.station(book, place, s).then_some(s);
    let first = two_at(row_of(book, s), 4);
    let phases = smallest_along::<R, _>(book, first, |(i, p)| {
        phase_fault::<R, L>(rule, book, s, i, p)
    });
    least_of(itself, phases)
}

// The smallest record of a book that breaks the rule.
pub fn first_fault<R: Linked, L: Rules>(rule: &L, book: &[u8]) -> Option<u16>
    ensures { result ≡ smallest (faults book.now (L.Rules.rule rule.now book.now)) }
{
    smallest_along::<R, _>(book, two_at(book, 6), |(place, s)| {
        station_fault::<R, L>(rule, book, place, s)
    })
}
