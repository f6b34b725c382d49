// Looking for a record of a chain.
ghost use Rattle.std.specs.Prelude.{◌≡◌, ℕ, Bool};
ghost use Rattle.std.specs.Iterator.{ActsAsAt};
ghost use Rattle.book.specs.Chains.{chain_of};
ghost use Rattle.places.specs.Firsts.{first_at};

use links::chain::Chain;
use links::link::Linked;

// The first record of the chain from `first` on that passes the test, which is told its place
// there, counted from 0. Each record is looked at once, and none behind the one that is found.
pub fn first_in_chain<R: Linked, F: Fn(&(usize, u16)) -> bool>(
    book: &[u8],
    first: u16,
    test: F,
) -> Option<u16>
    requires { (f : _) (at : _) → F.FnMut.pre f at }
    ensures { (passes : ℕ → ℕ → Bool) → ActsAsAt F.FnMut test (λ at. passes at.0 at.1) → result ≡ first_at passes 0 (chain_of book.now first) }
{
    Chain::<R>::of(book, first)
        .enumerate()
        .find(test)
        .map(|(_, k)| k)
}
