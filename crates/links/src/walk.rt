// Following a chain.
ghost use Rattle.std.specs.Prelude.{◌≡◌, ◌≤◌, length, IfOk};
ghost use Rattle.links.specs.Walks.{walk_answer, walk_list};

use super::chain::Chain;
use super::link::Linked;
use book::refusal::{Fault, Refusal};

// The records of the chain that begins at `first`, into the first slots of the list; answers how
// many. The list needs a slot for each record that the book has.
pub fn walk<R: Linked>(book: &[u8], first: u16, list: &mut [u16]) -> Result<usize, Refusal>
    ensures answer { result ≡ walk_answer book.now first list.old }
    ensures slots { list.new ≡ walk_list book.now first list.old }
    ensures within { IfOk result (λ count. count ≤ length list.new) }
{
    if list.len() < (book.len() / 32).saturating_sub(1) {
        return Err(Fault::Room.at(0));
    }
    let mut count = 0;
    for record in Chain::<R>::of(book, first) {
        list[count] = record;
        count += 1;
    }
    Ok(count)
}
