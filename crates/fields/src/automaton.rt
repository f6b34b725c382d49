// The records of an automaton book.
ghost use Rattle.std.specs.Prelude.{◌≡◌};
ghost use Rattle.fields.specs.Fields.{automaton_at, location_at, transition_at};

use book::bytes::parts_at;
use book::record::{Automaton, Location, Transition};
use records::automaton::{automaton_in, location_in, transition_in};

pub fn automaton_at(book: &[u8], k: u16) -> Automaton
    ensures { result ≡ automaton_at book.now k }
{
    automaton_in(&parts_at(book, k))
}

pub fn location_at(book: &[u8], k: u16) -> Location
    ensures { result ≡ location_at book.now k }
{
    location_in(&parts_at(book, k))
}

pub fn transition_at(book: &[u8], k: u16) -> Transition
    ensures { result ≡ transition_at book.now k }
{
    transition_in(&parts_at(book, k))
}
