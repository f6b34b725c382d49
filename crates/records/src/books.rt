// Books: written into a lent buffer, and read record by record.
ghost use Rattle.std.specs.Prelude.{◌≡◌, ℕ, ◌+◌, ◌*◌, ◌<◌, ◌≤◌, Bool, List, ◌++◌, length, drop, is_ok, if◌then◌else◌};
ghost use Rattle.records.specs.Fields.{decoded_by};
ghost use Rattle.records.specs.Books.{head_bytes, rows, book_bytes, record_of, write_answer, put_row, put_rows};

use super::rows::Rows;
use book::bytes::{row_of, two_at};
use book::record::{Head, Record};
use book::refusal::{Fault, Refusal};
use book::term::BookKind;

fn head_row(kind: BookKind, n: u16, head: Head) -> [u8; 32]
    ensures { result ≡ head_bytes kind n head }
{
    let [n0, n1] = n.to_be_bytes();
    let [s0, s1] = head.first_station.to_be_bytes();
    let [p0, p1] = head.first_path.to_be_bytes();
    row![
        u8::from(kind), 1, n0, n1, u8::from(head.order), 0, s0, s1;
        p0, p1, 0, 0, 0, 0, 0, 0;
        0, 0, 0, 0, 0, 0, 0, 0;
        0, 0, 0, 0, 0, 0, 0, 0
    ]
}

// Record k of a book, where it lies.
pub fn read<B: Rows>(book: &[u8], k: u16) -> Result<Record<B>, Refusal>
    ensures { result ≡ record_of (decoded_by B.Rows.body) book.now k }
{
    let place = usize::from(k);
    if k == 0 || k > two_at(book, 2) || 32 * place + 32 > book.len() {
        return Err(Fault::Links.at(place));
    }
    B::decode(row_of(book, k)).ok_or(Fault::Layout.at(place))
}

fn put_row(out: &mut [u8], k: usize, row: &[u8])
    requires few { k ≤ 2000 }
    requires long { length row.now ≡ 32 }
    requires room { 32 * k + 32 ≤ length out.old }
    ensures { out.new ≡ put_row out.old k row.now }
{
    let start = 32 * k;
    out[start..start + 32].copy_from_slice(row);
}

fn put_rows<B: Rows>(records: &[Record<B>], out: &mut [u8])
    requires few { length records.now ≤ 2000 }
    requires room { 32 * (length records.now + 1) ≤ length out.old }
    ensures { out.new ≡ put_rows B.Rows.encoded out.old 1 records.now }
{
    for (i, item) in records.iter().enumerate() {
        put_row(out, i + 1, &B::encode(*item));
    }
}

// Writes a book into the first bytes of a buffer, and answers how many.
pub fn write<B: Rows>(head: Head, records: &[Record<B>], out: &mut [u8]) -> Result<usize, Refusal>
    ensures answer { result ≡ write_answer B.Rows.kind (length records.now) (length out.old) }
    ensures bytes { out.new ≡ (if is_ok result then book_bytes B.Rows.kind B.Rows.encoded head records.now ++ drop (32 * (length records.now + 1)) out.old else out.old) }
{
    let kind = B::kind();
    let n = records.len();
    let limit = kind.most_records();
    if n == 0 || n > usize::from(limit) {
        return Err(Fault::Head.at(0));
    }
    let size = 32 * (n + 1);
    if out.len() < size {
        return Err(Fault::Room.at(0));
    }
    put_row(out, 0, &head_row(kind, n as u16, head));
    put_rows(records, out);
    Ok(size)
}
