// The fields that records of both kinds of book have, read from a record taken apart, and their bytes.
ghost use Rattle.std.specs.Prelude.{◌≡◌, ◌<◌, Bool};
ghost use Rattle.records.specs.Fields.{marked, window, window_laid, high_or, window_marks, path_in, path_laid, path_rest, row_bytes};
ghost use Rattle.book.specs.declared.term.Kind.TheVariants as kinds;

use book::bytes::{Parts, are_zero, byte_at};
use book::record::{HighEnd, Window};
use book::term::{Kind, Path};

// Whether the bit of that weight is set in the marks.
pub(crate) fn is_marked(marks: u8, bit: u8) -> bool
    requires { 0 < bit }
    ensures { result ≡ marked marks bit }
{
    marks / bit % 2 == 1
}

// The window with those ends, by the marks.
pub(crate) fn window_by<T: Copy>(marks: u8, low: T, high: T) -> Window<T>
    ensures { result ≡ window marks low high }
{
    let end = if is_marked(marks, 4) {
        HighEnd::Absent
    } else if is_marked(marks, 2) {
        HighEnd::Open(high)
    } else {
        HighEnd::Closed(high)
    };
    Window {
        low,
        low_open: is_marked(marks, 1),
        high: end,
    }
}

// Whether those are marks of a window; `high_zero` tells whether its high end's bytes are zero.
pub(crate) fn is_window_laid(marks: u8, high_zero: bool) -> bool
    ensures { result ≡ window_laid marks high_zero }
{
    marks <= 7 && (!is_marked(marks, 4) || !is_marked(marks, 2) && high_zero)
}

// The marks of a window.
pub(crate) fn marks_of<T: Copy>(window: Window<T>) -> u8
    ensures { result ≡ window_marks window }
{
    let high = match window.high {
        HighEnd::Closed(_) => 0,
        HighEnd::Open(_) => 2,
        HighEnd::Absent => 4,
    };
    u8::from(window.low_open) + high
}

// The high end, or what stands for none.
pub(crate) fn high_or<T: Copy>(none: T, high: HighEnd<T>) -> T
    ensures { result ≡ high_or none high }
{
    high.end().unwrap_or(none)
}

// A path.
pub fn path_in(parts: &Parts<'_>) -> Path
    ensures { result ≡ path_in parts.now.rest.now }
{
    Path {
        sender: byte_at(parts.rest, 0),
        sender_port: byte_at(parts.rest, 1),
        hearer: byte_at(parts.rest, 2),
        hearer_port: byte_at(parts.rest, 3),
    }
}

pub(crate) fn is_path_laid(parts: &Parts<'_>) -> bool
    ensures { result ≡ path_laid parts.now.marks parts.now.rest.now }
{
    parts.marks == 0 && are_zero(parts.rest, 4, 28)
}

// The 32 bytes of a path, in either kind of book.
pub(crate) fn path_row(next: u16, path: Path) -> [u8; 32]
    ensures { result ≡ row_bytes kinds.Path 0 next (path_rest path) }
{
    let [n0, n1] = next.to_be_bytes();
    row![
        u8::from(Kind::Path), 0, n0, n1, path.sender, path.sender_port, path.hearer, path.hearer_port;
        0, 0, 0, 0, 0, 0, 0, 0;
        0, 0, 0, 0, 0, 0, 0, 0;
        0, 0, 0, 0, 0, 0, 0, 0
    ]
}
