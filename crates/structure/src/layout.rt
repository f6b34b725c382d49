// The layout of the head and of the records.
ghost use Rattle.std.specs.Prelude.{◌≡◌, is_some};
ghost use Rattle.records.specs.Fields.{decoded_by};
ghost use Rattle.structure.specs.Faults.{head_laid, unlaid};

use book::bytes::{are_zero, row_of};
use records::rows::Rows;

fn is_head_laid(row: &[u8]) -> bool
    ensures { result ≡ head_laid row.now }
{
    are_zero(row, 5, 6) && are_zero(row, 10, 32)
}

// Whether a kind, a mark, a label, a reset byte or a byte without a meaning is wrong in record i.
pub fn is_unlaid<R: Rows>(book: &[u8], i: u16) -> bool
    ensures { result ≡ unlaid (λ r. is_some (decoded_by R.Rows.body r)) book.now i }
{
    let row = row_of(book, i);
    if i == 0 {
        !is_head_laid(row)
    } else {
        R::decode(row).is_none()
    }
}
