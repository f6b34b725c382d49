// The paths of a book.
ghost use Rattle.std.specs.Prelude.{◌≡◌};
ghost use Rattle.visits.specs.Smallest.{smallest};
ghost use Rattle.chains.specs.Paths.{path_faults};

use super::member::chain_length;
use book::bytes::two_at;
use links::link::Linked;
use records::heads::path_at;
use visits::visit::smallest_along;

// The smallest record of a path with wrong ends.
pub fn first_wrong_path<R: Linked>(book: &[u8]) -> Option<u16>
    ensures { result ≡ smallest (path_faults book.now) }
{
    let stations = chain_length::<R>(book, two_at(book, 6));
    smallest_along::<R, _>(book, two_at(book, 8), |(_, k)| {
        path_at(book, k).has_wrong_ends(stations).then_some(k)
    })
}
