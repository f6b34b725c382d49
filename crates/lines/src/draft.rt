// A line while it is being written: bytes of its own, and how many of them are in use.
ghost use Rattle.std.specs.Prelude.{◌≡◌, ◌+◌, ◌<◌, ◌≤◌, [], ◌∷◌, ◌++◌, length, decimal};

use std::marker::Model;

// The bytes of the longest line, `= 65535 255 18446744073709551615`, with its line feed.
const LONGEST: usize = 33;

// Contracts see the text alone.
#[derive(Drop)]
pub struct Draft {
    bytes: [u8; LONGEST],
    // Stays: writing uses no heap, so that the bytes are an array with a count.
    used: usize,
}

impl Model for Draft {
    ghost use Rattle.std.specs.Prelude.{ℕ, ◌≤◌, List};

    ghost Value = { List ℕ };

    ghost use Rattle.lines.specs.Drafts.{text_of};

    ghost view = { text_of };

    ghost invariant = { λ d. d.used ≤ 33 };
}

impl Draft {
    pub fn new() -> Draft
        ensures { result ≡ [] }
    {
        Draft {
            bytes: [0; LONGEST],
            used: 0,
        }
    }

    // The text so far.
    pub fn as_bytes(&self) -> &[u8]
        ensures { result.now ≡ self.now }
    {
        &self.bytes[..self.used]
    }

    pub fn push(&mut self, byte: u8)
        requires { length self.old < 33 }
        ensures { self.new ≡ self.old ++ byte ∷ [] }
    {
        self.bytes[self.used] = byte;
        self.used += 1;
    }

    // A number in decimal.
    pub fn push_number(&mut self, number: u64)
        requires { length self.old + length (decimal number) ≤ 33 }
        ensures { self.new ≡ self.old ++ decimal number }
    {
        if number >= 10 {
            self.push_number(number / 10);
        }
        self.push(b'0' + (number % 10) as u8);
    }
}
