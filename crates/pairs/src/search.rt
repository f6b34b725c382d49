// Whether a record of a chain takes one word at one moment with another of it.
ghost use Rattle.std.specs.Prelude.{◌≡◌, ℕ};
ghost use Rattle.std.specs.Iterator.{ActsAs};
ghost use Rattle.visits.specs.Visits.{followed};
ghost use Rattle.pairs.specs.Pairs.{Heard, taker_of, meets, meeting_another};

use super::taker::Taker;
use chains::member::any_in_chain;
use links::link::Linked;
use spans::hearing::Hearing;
use spans::time::Time;

// A record with what it takes; `hearing_of` gives that, nothing unless it hears.
pub(crate) fn taker_of<T: Time, F: Fn(u16) -> Option<Hearing<T>>>(
    edge: u16,
    hearing_of: &F,
) -> Taker<T>
    requires { (f : _) (k : _) → F.FnMut.pre f k }
    ensures { (heard : ℕ → Heard T) → ActsAs F.FnMut hearing_of.now heard → result ≡ taker_of heard edge }
{
    Taker {
        edge,
        hearing: hearing_of(edge),
    }
}

// Whether the record is another than that of the taker, and both take some word at some moment.
fn is_met<T: Time, F: Fn(u16) -> Option<Hearing<T>>>(
    taker: Taker<T>,
    edge: u16,
    hearing_of: &F,
) -> bool
    requires { (f : _) (k : _) → F.FnMut.pre f k }
    ensures { (heard : ℕ → Heard T) → ActsAs F.FnMut hearing_of.now heard → result ≡ meets T.Time.time taker (taker_of heard edge) }
{
    taker.meets(taker_of::<T, F>(edge, hearing_of))
}

// Whether the edge shares port, value and moment with another one of the chain from `first` on;
// `hearing_of` gives what an edge takes, nothing unless it hears.
pub fn meets_another<R: Linked, T: Time, F: Fn(u16) -> Option<Hearing<T>>>(
    book: &[u8],
    first: u16,
    edge: u16,
    hearing_of: F,
) -> bool
    requires { (f : _) (k : _) → F.FnMut.pre f k }
    ensures { (heard : ℕ → Heard T) → ActsAs F.FnMut hearing_of heard → result ≡ meeting_another T.Time.time heard edge (followed book.now first) }
{
    let taker = taker_of::<T, F>(edge, &hearing_of);
    any_in_chain::<R, _>(book, first, |(_, k)| is_met::<T, F>(taker, k, &hearing_of))
}
