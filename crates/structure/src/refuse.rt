// What was found, as a refusal.
ghost use Rattle.std.specs.Prelude.{◌≡◌, Ok};
ghost use Rattle.structure.specs.Structure.{unless, at_0};

use book::refusal::{Fault, Refusal};

// Refuses for the fault at the place where it was found.
pub fn refuse(fault: Fault, found: Option<u16>) -> Result<(), Refusal>
    ensures { result ≡ unless found fault (Ok tt) }
{
    match found {
        Some(record) => Err(fault.at(usize::from(record))),
        None => Ok(()),
    }
}

// The place of a fault of the whole book.
pub fn whole_book(wrong: bool) -> Option<u16>
    ensures { result ≡ at_0 wrong }
{
    wrong.then_some(0)
}
