// A machine over a lent automaton book that the check accepts: the book, and its table of places.
ghost use Rattle.std.specs.Prelude.{◌≡◌, true};
ghost use Rattle.book.specs.declared.term.BookKind.TheVariants.{Automaton};
ghost use Rattle.records.specs.Fits.{Bytes};
ghost use Rattle.accepted.specs.Accepted.{accepts};
ghost use Rattle.places.specs.Tables.{places_of};

use places::table::Places;

#[derive(Clone, Copy)]
pub struct Automata<'a> {
    pub(crate) book: &'a [u8],
    pub(crate) places: Places,
    ghost bytes: { Bytes book.now },
    ghost accepted: { accepts book.now Automaton ≡ true },
    ghost placed: { places ≡ places_of book.now },
}
