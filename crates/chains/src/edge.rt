// Rules about edges, or transitions, alone.
ghost use Rattle.std.specs.Prelude.{◌≡◌, ℕ, Bool, List};
ghost use Rattle.std.specs.Iterator.{ActsAs, ActsAsOnTwo};
ghost use Rattle.visits.specs.Smallest.{smallest, along};
ghost use Rattle.visits.specs.Visits.{phases};
ghost use Rattle.chains.specs.EdgeRules.{broken_edges, faulty_edges};

use book::bytes::{row_of, two_at};
use links::link::Linked;
use visits::visit::smallest_along;

// The smallest edge of a station that breaks a rule, by its phases.
fn first_faulty_in_station<R: Linked, F: Fn(u16) -> Option<u16>>(
    book: &[u8],
    s: u16,
    first_broken: &F,
) -> Option<u16>
    requires { (f : _) (p : _) → F.FnMut.pre f p }
    ensures { (found : ℕ → List ℕ) → ActsAs F.FnMut first_broken.now (λ p. smallest (found p)) → result ≡ smallest (along (λ i p. found p) 0 (phases book.now s)) }
{
    smallest_along::<R, _>(book, two_at(row_of(book, s), 4), |(_, p)| first_broken(p))
}

// The smallest edge of a book that breaks a rule, where `first_broken` gives the smallest such edge
// of a phase.
pub fn first_faulty_in_phases<R: Linked, F: Fn(u16) -> Option<u16>>(
    book: &[u8],
    first_broken: F,
) -> Option<u16>
    requires { (f : _) (p : _) → F.FnMut.pre f p }
    ensures { (broken : ℕ → ℕ → Bool) → ActsAs F.FnMut first_broken (λ p. smallest (broken_edges book.now broken p)) → result ≡ smallest (faulty_edges book.now broken) }
{
    smallest_along::<R, _>(book, two_at(book, 6), |(_, s)| {
        first_faulty_in_station::<R, F>(book, s, &first_broken)
    })
}

// The smallest edge of a phase that breaks the rule.
fn first_faulty_of_phase<R: Linked, F: Fn(u16, u16) -> bool>(
    book: &[u8],
    p: u16,
    is_broken: &F,
) -> Option<u16>
    requires { (f : _) (p : _) (e : _) → F.FnMut.pre f (p, e) }
    ensures { (broken : ℕ → ℕ → Bool) → ActsAsOnTwo F.FnMut is_broken.now broken → result ≡ smallest (broken_edges book.now broken p) }
{
    smallest_along::<R, _>(book, two_at(row_of(book, p), 4), |(_, e)| {
        is_broken(p, e).then_some(e)
    })
}

// The smallest edge of a book that breaks the rule, which is told its phase.
pub fn first_faulty_edge<R: Linked, F: Fn(u16, u16) -> bool>(
    book: &[u8],
    is_broken: F,
) -> Option<u16>
    requires { (f : _) (p : _) (e : _) → F.FnMut.pre f (p, e) }
    ensures { (broken : ℕ → ℕ → Bool) → ActsAsOnTwo F.FnMut is_broken broken → result ≡ smallest (faulty_edges book.now broken) }
{
    first_faulty_in_phases::<R, _>(book, |p| {
        first_faulty_of_phase::<R, F>(book, p, &is_broken)
    })
}
