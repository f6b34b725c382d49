// The edges of a phase that share a moment with another of it, by a table.
ghost use Rattle.std.specs.Prelude.{◌≡◌, ℕ, length};
ghost use Rattle.std.specs.Iterator.{ActsAs};
ghost use Rattle.links.specs.Walks.{left};
ghost use Rattle.pairs.specs.Pairs.{Heard, takers, table_answer, table_list};

use super::search::taker_of;
use super::taker::{Taker, first_meeting};
use book::bytes::{row_of, two_at};
use book::refusal::{Fault, Refusal};
use chains::member::chain_length;
use links::chain::Chain;
use links::link::Linked;
use spans::hearing::Hearing;
use spans::time::Time;
use visits::visit::followed;

// What each of these edges takes, into the slots of the table.
// Stays: an index into the table. After a loop over `table.iter_mut().zip(edges)` a proof knows
// nothing of the table.
fn fill<R: Linked, T: Time, F: Fn(u16) -> Option<Hearing<T>>>(
    edges: Chain<'_, R>,
    table: &mut [Taker<T>],
    hearing_of: &F,
)
    requires callable { (f : _) (k : _) → F.FnMut.pre f k }
    requires room { length (left edges) ≡ length table.old }
    ensures { (heard : ℕ → Heard T) → ActsAs F.FnMut hearing_of.now heard → table.new ≡ takers heard (left edges.entry) }
{
    for (i, edge) in edges.enumerate() {
        table[i] = taker_of::<T, F>(edge, hearing_of);
    }
}

// The smallest edge of phase p that shares a moment with another of it; `hearing_of` gives what an
// edge takes in p. What each takes is read once, into the first slots of the table, which needs a
// slot for each edge.
pub fn first_in_table<R: Linked, T: Time, F: Fn(u16) -> Option<Hearing<T>>>(
    book: &[u8],
    p: u16,
    table: &mut [Taker<T>],
    hearing_of: F,
) -> Result<Option<u16>, Refusal>
    requires { (f : _) (k : _) → F.FnMut.pre f k }
    ensures answer { (heard : ℕ → ℕ → Heard T) → ActsAs F.FnMut hearing_of (heard p) → result ≡ table_answer T.Time.time book.now heard p table.old }
    ensures slots { (heard : ℕ → ℕ → Heard T) → ActsAs F.FnMut hearing_of (heard p) → table.new ≡ table_list book.now heard p table.old }
{
    let first = two_at(row_of(book, p), 4);
    let count = chain_length::<R>(book, first);
    if table.len() < count {
        return Err(Fault::Room.at(0));
    }
    let slots = &mut table[0..count];
    fill::<R, T, F>(followed::<R>(book, first), slots, &hearing_of);
    Ok(first_meeting(slots))
}
