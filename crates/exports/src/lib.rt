// The calls that a C program makes. include/translator.h declares them and says what the caller
// owes.

#![tactic(auto)]

ghost use Rattle.std.specs.Prelude.{◌≡◌};
ghost use Rattle.book_check.specs.Check.{check_of};
ghost use Rattle.exports.specs.Told.{told_number, told_place};

use book_check::check;

// Judges a book of either kind: 0, or the number of the first refusal. The place is written on a
// refusal only.
#[unsafe(no_mangle)]
pub extern "C" fn translator_check(book: &[u8], place: &mut u64) -> u32
    ensures answer { result ≡ told_number (check_of book.now) }
    ensures place_told { place.new ≡ told_place (check_of book.now) place.old }
{
    match check(book) {
        Ok(_) => 0,
        Err(refusal) => {
            *place = refusal.place as u64;
            u32::from(u8::from(refusal.fault))
        }
    }
}
