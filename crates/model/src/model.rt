// A machine over a lent model book that the check accepts: the book, its table of places, and the
// scales of its stations.
ghost use Rattle.std.specs.Prelude.{◌≡◌, ℕ, ◌<◌, true, slice_index};
ghost use Rattle.book.specs.declared.term.BookKind.TheVariants.{Model as ModelBook};
ghost use Rattle.records.specs.Fits.{Bytes};
ghost use Rattle.book_scales.specs.Scales.{fitting_scale};
ghost use Rattle.accepted.specs.Accepted.{accepts};
ghost use Rattle.places.specs.Tables.{places_of, station_in};

use places::table::Places;

#[derive(Clone, Copy)]
pub struct Model<'a> {
    pub(crate) book: &'a [u8],
    pub(crate) places: Places,
    // Stays: a machine uses no heap, and a lawful book has at most 16 stations.
    pub(crate) scales: [u32; 16],
    ghost bytes: { Bytes book.now },
    ghost accepted: { accepts book.now ModelBook ≡ true },
    ghost placed: { places ≡ places_of book.now },
    ghost scaled: { (i : ℕ) → i < 16 → i < places.stations → slice_index scales i ≡ fitting_scale book.now (station_in places i) },
}
