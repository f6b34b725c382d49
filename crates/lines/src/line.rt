// What a line tells.
ghost use Rattle.std.specs.Prelude.{◌≡◌, MatchOption, ◌≢◌};
ghost use Rattle.book.specs.declared.refusal.Fault.{Fault as Faults};
ghost use Rattle.book.specs.Refusals.{fault_number};

use book::event::Event;
use book::refusal::{Fault, Refusal};

// What a station tells of itself: its phase, how many words of it are sent, and how many parts
// have elapsed in it.
#[derive(Clone, Copy)]
pub struct Telling {
    pub phase: u16,
    pub sent: u8,
    pub elapsed: u64,
}

// A line of text tells an event, a refusal or what a station tells.
#[derive(Clone, Copy)]
pub enum Line {
    Event(Event),
    Refusal(Refusal),
    Telling(Telling),
}

// Stays: a public call, whose contract gives the same by an Option.
// The fault that has the number.
pub fn fault_from_number(number: u8) -> Option<Fault>
    ensures { MatchOption result ((f : Faults) → fault_number f ≢ number) (λ f. fault_number f ≡ number) }
{
    Fault::try_from(number).ok()
}
