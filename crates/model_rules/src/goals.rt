// Goals, openings and next phases are phases of the record's own station.
ghost use Rattle.std.specs.Prelude.{◌≡◌};
ghost use Rattle.visits.specs.Smallest.{smallest};
ghost use Rattle.visits.specs.Visits.{faults};
ghost use Rattle.model_rules.specs.Rules.{wrong_next, goals};

use book::record::{ModelBody, Phase};
use chains::member::is_outside;
use fields::model::{edge_at, is_endless, phase_at, station_at};
use visits::rule::{Rules, first_fault};

// Whether the phase's next phase and words do not suit its lifetime.
fn has_wrong_next(book: &[u8], s: u16, phase: Phase) -> bool
    ensures { result ≡ wrong_next book.now s phase }
{
    if is_endless(phase.lifetime) {
        phase.next_phase != 0 || phase.first_word != 0
    } else {
        is_outside::<ModelBody>(book, s, phase.next_phase)
    }
}

#[derive(Drop)]
struct Goals;

impl Rules for Goals {
    ghost rule = { λ _. goals };

    fn station(&self, book: &[u8], place: usize, s: u16) -> bool {
        is_outside::<ModelBody>(book, s, station_at(book, s).opening)
    }

    fn phase(&self, book: &[u8], s: u16, place: usize, p: u16) -> bool {
        has_wrong_next(book, s, phase_at(book, p))
    }

    fn edge(&self, book: &[u8], s: u16, p: u16, e: u16) -> bool {
        is_outside::<ModelBody>(book, s, edge_at(book, e).goal)
    }

    fn word(&self, book: &[u8], place: usize, w: u16) -> bool {
        false
    }
}

// The smallest record of a model book that names a phase outside its station, or whose next phase
// and words do not suit its lifetime.
pub fn first_outside(book: &[u8]) -> Option<u16>
    ensures { result ≡ smallest (faults book.now (goals book.now)) }
{
    first_fault::<ModelBody, Goals>(&Goals, book)
}
