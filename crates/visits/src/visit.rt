// Visiting the records of a chain.
ghost use Rattle.std.specs.Prelude.{◌≡◌, ℕ, ◌≤◌, List, length};
ghost use Rattle.std.specs.Iterator.{ActsAs};
ghost use Rattle.links.specs.Walks.{left};
ghost use Rattle.visits.specs.Smallest.{least, smallest, along, SmallestIsSmallest};
ghost use Rattle.visits.specs.Visits.{followed};

use links::chain::Chain;
use links::link::Linked;

// The most records that a book has.
const MOST: usize = 2000;

// The smaller of two record numbers, if there are any.
pub fn least_of(x: Option<u16>, y: Option<u16>) -> Option<u16>
    ensures { result ≡ least x y }
{
    match (x, y) {
        (Some(a), Some(b)) => Some(a.min(b)),
        _ => x.or(y),
    }
}

// The records of the chain from `first` on; none in bytes that are longer than any book.
pub fn followed<R: Linked>(book: &[u8], first: u16) -> Chain<'_, R>
    ensures records { left result ≡ followed book.now first }
    ensures few { length (left result) ≤ 2000 }
{
    let records = (book.len() / 32).saturating_sub(1);
    Chain::of(book, if records > MOST { 0 } else { first })
}

// The smallest record that is found along the chain from `first` on: `find` gives the smallest that
// is found at a record, told its place in the chain, counted from 0.
pub fn smallest_along<R: Linked, F: Fn((usize, u16)) -> Option<u16>>(
    book: &[u8],
    first: u16,
    find: F,
) -> Option<u16>
    requires { (f : _) (at : _) → F.FnMut.pre f at }
    ensures { (found : ℕ → ℕ → List ℕ) → ActsAs F.FnMut find (λ at. smallest (found at.0 at.1)) → result ≡ smallest (along found 0 (followed book.now first)) }
{
    followed::<R>(book, first)
        .enumerate()
        .filter_map(find)
        .min()
}

// The smallest is one of them, and none is smaller.
pub fn smallest_is_smallest()
    ensures { SmallestIsSmallest }
{}
