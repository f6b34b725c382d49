// The bytes of a book, read where they lie. What lies past the end of a slice reads as 0.
ghost use Rattle.std.specs.Prelude.{◌≡◌, ℕ, ◌+◌, length, drop, MatchOption, ◌≢◌};
ghost use Rattle.book.specs.Bytes.{at, two, four, eight, row, zeros, Apart};

// Byte i.
pub fn byte_at(bytes: &[u8], i: usize) -> u8
    ensures { result ≡ at bytes.now i }
{
    bytes.get(i).copied().unwrap_or(0)
}

// The number in two bytes of a row from i on, the highest byte first.
pub fn two_at(bytes: &[u8], i: u8) -> u16
    ensures { result ≡ two bytes.now i }
{
    let i = usize::from(i);
    u16::from_be_bytes([byte_at(bytes, i), byte_at(bytes, i + 1)])
}

// Four bytes from any place up to 65,535.
fn wide_at(bytes: &[u8], i: u16) -> u32
    ensures { result ≡ four bytes.now i }
{
    let i = usize::from(i);
    u32::from_be_bytes([
        byte_at(bytes, i),
        byte_at(bytes, i + 1),
        byte_at(bytes, i + 2),
        byte_at(bytes, i + 3),
    ])
}

// The number in four bytes of a row from i on.
pub fn four_at(bytes: &[u8], i: u8) -> u32
    ensures { result ≡ four bytes.now i }
{
    wide_at(bytes, u16::from(i))
}

// The number in eight bytes of a row from i on.
pub fn eight_at(bytes: &[u8], i: u8) -> u64
    ensures { result ≡ eight bytes.now i }
{
    let k = u16::from(i);
    4294967296 * u64::from(wide_at(bytes, k)) + u64::from(wide_at(bytes, k + 4))
}

// Whether the bytes from i up to, and without, j are zero.
pub fn are_zero(bytes: &[u8], i: usize, j: usize) -> bool
    ensures { result ≡ zeros bytes.now i j }
{
    bytes
        .iter()
        .skip(i)
        .take(j.saturating_sub(i))
        .all(|byte| *byte == 0)
}

// The 32 bytes of record k, or what the book has of them. The head is record 0.
pub fn row_of(book: &[u8], k: u16) -> &[u8]
    ensures { result.now ≡ row book.now k }
{
    let start = 32 * usize::from(k);
    let from = start.min(book.len());
    let to = (start + 32).min(book.len());
    &book[from..to]
}

// A record taken apart: its kind, its marks, the next record of its chain, and the remaining
// twenty-eight bytes.
#[derive(Clone, Copy)]
pub struct Parts<'a> {
    pub kind: u8,
    pub marks: u8,
    pub next: u16,
    pub rest: &'a [u8],
}

// Record k, taken apart. What its row lacks reads as 0.
pub fn parts_at(book: &[u8], k: u16) -> Parts<'_>
    ensures kind { result.kind ≡ at (row book.now k) 0 }
    ensures marks { result.marks ≡ at (row book.now k) 1 }
    ensures next { result.next ≡ two (row book.now k) 2 }
    ensures rest { result.rest.now ≡ drop 4 (row book.now k) }
{
    let row = row_of(book, k);
    Parts {
        kind: byte_at(row, 0),
        marks: byte_at(row, 1),
        next: two_at(row, 2),
        rest: &row[row.len().min(4)..],
    }
}

// Nothing where the row is not of 32 bytes.
pub fn take_apart(bytes: &[u8]) -> Option<Parts<'_>>
    ensures { MatchOption result (length bytes.now ≢ 32) (λ p. Apart bytes.now p.kind p.marks p.next p.rest.now) }
{
    let [kind, marks, next_high, next_low, rest @ ..] = bytes else {
        return None;
    };
    (bytes.len() == 32).then_some(Parts {
        kind: *kind,
        marks: *marks,
        next: u16::from_be_bytes([*next_high, *next_low]),
        rest,
    })
}
