// The records of a chain, one after another.
ghost use Rattle.std.specs.Prelude.{◌≡◌, ◌≤◌, length};
ghost use Rattle.std.specs.Iterator.{YieldsFirst, item_count};
ghost use Rattle.book.specs.Chains.{chain_of};
ghost use Rattle.links.specs.Walks.{left};

use super::link::Linked;
use book::bytes::row_of;
use std::marker::PhantomData;

// The records of a chain that are still to come: `at` is the next one, and no more than `most` come.
#[derive(Drop)]
pub struct Chain<'a, R> {
    book: &'a [u8],
    at: u16,
    most: usize,
    kind: PhantomData<R>,
}

impl<'a, R: Linked> Chain<'a, R> {
    // The chain that begins at `first`. It ends at an index of 0 or past the last whole record, and
    // at the latest after as many records as the book has.
    #[tactic(auto, using(crate::proofs::Chains::chain_within))]
    pub fn of(book: &'a [u8], first: u16) -> Chain<'a, R>
        ensures records { left result ≡ chain_of book.now first }
        ensures few { length (left result) ≤ length book.now }
    {
        Chain {
            book,
            at: first,
            most: (book.len() / 32).saturating_sub(1),
            kind: PhantomData,
        }
    }
}

impl<R: Linked> Iterator for Chain<'_, R> {
    type Item = u16;

    ghost next_gives = { YieldsFirst left };

    ghost remaining = { item_count left };

    fn next(&mut self) -> Option<u16> {
        let record = self.at;
        let records = (self.book.len() / 32).saturating_sub(1);
        if self.most == 0 || record == 0 || usize::from(record) > records {
            return None;
        }
        self.at = R::next(row_of(self.book, record));
        self.most -= 1;
        Some(record)
    }
}
