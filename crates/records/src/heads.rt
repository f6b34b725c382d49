// What the head of a book tells, and the paths of a book, where they lie.
ghost use Rattle.std.specs.Prelude.{◌≡◌};
ghost use Rattle.records.specs.Heads.{order_in, path_at};

use super::fields::path_in;
use book::bytes::{byte_at, parts_at};
use book::term::{Order, Path};

// The order of a book; step first where its head has none.
pub fn order_in(book: &[u8]) -> Order
    ensures { result ≡ order_in book.now }
{
    Order::try_from(byte_at(book, 4)).unwrap_or(Order::StepFirst)
}

// The path in a record.
pub fn path_at(book: &[u8], k: u16) -> Path
    ensures { result ≡ path_at book.now k }
{
    path_in(&parts_at(book, k))
}
