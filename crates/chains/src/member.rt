// The records of a chain.
ghost use Rattle.std.specs.Prelude.{◌≡◌, ℕ, Bool, not, length};
ghost use Rattle.std.specs.Iterator.{ActsAs};
ghost use Rattle.visits.specs.Visits.{followed, phases};
ghost use Rattle.chains.specs.Some.{some_at, among};

use book::bytes::{row_of, two_at};
use links::link::Linked;
use visits::visit::followed;

// Whether some record of the chain from `first` on passes the test, which is told its place there,
// counted from 0.
pub fn any_in_chain<R: Linked, F: Fn((usize, u16)) -> bool>(
    book: &[u8],
    first: u16,
    test: F,
) -> bool
    requires { (f : _) (at : _) → F.FnMut.pre f at }
    ensures { (passes : ℕ → ℕ → Bool) → ActsAs F.FnMut test (λ at. passes at.0 at.1) → result ≡ some_at passes 0 (followed book.now first) }
{
    followed::<R>(book, first).enumerate().any(test)
}

// Whether the record is in the chain from `first` on.
pub fn is_in_chain<R: Linked>(book: &[u8], first: u16, number: u16) -> bool
    ensures { result ≡ among number (followed book.now first) }
{
    any_in_chain::<R, _>(book, first, |(_, k)| k == number)
}

// Whether record k is no phase of station s, or no location of automaton s.
pub fn is_outside<R: Linked>(book: &[u8], s: u16, k: u16) -> bool
    ensures { result ≡ not (among k (phases book.now s)) }
{
    !is_in_chain::<R>(book, two_at(row_of(book, s), 4), k)
}

// How many records the chain from `first` on has.
pub fn chain_length<R: Linked>(book: &[u8], first: u16) -> usize
    ensures { result ≡ length (followed book.now first) }
{
    followed::<R>(book, first).count()
}
