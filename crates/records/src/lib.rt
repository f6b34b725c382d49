// The records of both kinds of book as rows of 32 bytes: decode and encode, read and write.

#![tactic(auto)]

// The bytes of a row, eight to a line.
macro_rules! row {
    ($($($byte:expr),+);+) => {
        [$($($byte),+),+]
    };
}

pub mod automaton;
pub mod books;
pub mod fields;
pub mod heads;
pub mod model;
pub mod rows;
