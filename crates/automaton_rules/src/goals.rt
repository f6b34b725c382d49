// Goals and openings are locations of the record's own automaton.
ghost use Rattle.std.specs.Prelude.{◌≡◌};
ghost use Rattle.visits.specs.Smallest.{smallest};
ghost use Rattle.visits.specs.Visits.{faults};
ghost use Rattle.automaton_rules.specs.Rules.{goals};

use book::record::AutomatonBody;
use chains::member::is_outside;
use fields::automaton::{automaton_at, transition_at};
use visits::rule::{Rules, first_fault};

#[derive(Drop)]
struct Goals;

impl Rules for Goals {
    ghost rule = { λ _. goals };

    fn station(&self, book: &[u8], place: usize, s: u16) -> bool {
        is_outside::<AutomatonBody>(book, s, automaton_at(book, s).opening)
    }

    fn phase(&self, book: &[u8], s: u16, place: usize, p: u16) -> bool {
        false
    }

    fn edge(&self, book: &[u8], s: u16, p: u16, e: u16) -> bool {
        is_outside::<AutomatonBody>(book, s, transition_at(book, e).goal)
    }

    fn word(&self, book: &[u8], place: usize, w: u16) -> bool {
        false
    }
}

// The smallest record of an automaton book that names a location outside its automaton.
pub fn first_outside(book: &[u8]) -> Option<u16>
    ensures { result ≡ smallest (faults book.now (goals book.now)) }
{
    first_fault::<AutomatonBody, Goals>(&Goals, book)
}
