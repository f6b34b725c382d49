// What the head of a book tells, and the book's paths. Each call first refuses what the check of
// the structure refuses.
ghost use Rattle.std.specs.Prelude.{◌≡◌, ◌≤◌, map, length, IfOk};
ghost use Rattle.book.specs.Bytes.{two};
ghost use Rattle.links.specs.Walks.{walk_answer, walk_list, filled};
ghost use Rattle.structure.specs.Heads.{order_in, head_of, order_of, path_at, paths_answer, paths_list};

use super::structure;
use book::bytes::two_at;
use book::record::{AutomatonBody, Head, ModelBody};
use book::refusal::{Fault, Refusal};
use book::term::{BookKind, Order, Path};
use links::walk::walk;
use records::heads::{order_in, path_at};

// The order, the first station or automaton, and the first path.
pub fn head(book: &[u8]) -> Result<Head, Refusal>
    ensures { result ≡ head_of book.now }
{
    structure(book)?;
    Ok(Head {
        order: order_in(book),
        first_station: two_at(book, 6),
        first_path: two_at(book, 8),
    })
}

// The order of the book's net.
pub fn order(book: &[u8]) -> Result<Order, Refusal>
    ensures { result ≡ order_of book.now }
{
    structure(book).map(|_| order_in(book))
}

// The numbers of the path records, in the order of their chain.
fn path_numbers(kind: BookKind, book: &[u8], list: &mut [u16]) -> Result<usize, Refusal>
    ensures answer { result ≡ walk_answer book.now (two book.now 8) list.old }
    ensures slots { list.new ≡ walk_list book.now (two book.now 8) list.old }
    ensures within { IfOk result (λ count. count ≤ length list.new) }
{
    let first = two_at(book, 8);
    match kind {
        BookKind::Model => walk::<ModelBody>(book, first, list),
        BookKind::Automaton => walk::<AutomatonBody>(book, first, list),
    }
}

// The paths in the records of these numbers, into the first slots of the list.
fn fill_paths(book: &[u8], numbers: &[u16], list: &mut [Path])
    requires { length numbers.now ≤ length list.old }
    ensures { list.new ≡ filled (map (path_at book.now) numbers.now) list.old }
{
    for (i, record) in numbers.iter().enumerate() {
        list[i] = path_at(book, *record);
    }
}

// The book's own paths in the order of their chain, into the first slots of the list; answers how
// many. The list needs a slot for each.
pub fn paths(book: &[u8], list: &mut [Path]) -> Result<usize, Refusal>
    ensures answer { result ≡ paths_answer book.now list.old }
    ensures slots { list.new ≡ paths_list book.now list.old }
{
    let kind = structure(book)?;
    // Stays: without the heap, the numbers are kept until it is known that the list has room for all.
    let mut numbers = [0; 2000];
    let count = path_numbers(kind, book, &mut numbers)?;
    if list.len() < count {
        return Err(Fault::Room.at(0));
    }
    fill_paths(book, &numbers[0..count], list);
    Ok(count)
}
