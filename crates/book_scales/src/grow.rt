// Scales along a chain.
ghost use Rattle.std.specs.Prelude.{◌≡◌, ℕ, List};
ghost use Rattle.std.specs.Iterator.{ActsAsOnTwo};
ghost use Rattle.std.specs.List.{flat_map};
ghost use Rattle.scales.specs.Limited.{grown_all};
ghost use Rattle.visits.specs.Visits.{followed};

use links::link::Linked;
use visits::visit::followed;

// The scale so far, with the denominators at the records of the chain from `first` on: `grow` gives
// the scale so far with those at one record.
pub fn grow_along<R: Linked, F: Fn(Option<u32>, u16) -> Option<u32>>(
    book: &[u8],
    first: u16,
    start: Option<u32>,
    grow: F,
) -> Option<u32>
    requires { (f : _) (scale : _) (k : _) → F.FnMut.pre f (scale, k) }
    ensures { (standing : ℕ → List ℕ) → ActsAsOnTwo F.FnMut grow (λ scale k. grown_all scale (standing k)) → result ≡ grown_all start (flat_map standing (followed book.now first)) }
{
    followed::<R>(book, first).fold(start, grow)
}
