// What the machine is asked.
ghost use Rattle.std.specs.Prelude.{◌≡◌, Ok};
ghost use Rattle.book.specs.declared.term.BookKind.TheVariants.{Automaton};
ghost use Rattle.semantics.specs.Books.{read_automata};
ghost use Rattle.semantics.specs.Meanings.{automata_meaning};
ghost use Rattle.book_check.specs.Check.{check_of};
ghost use Rattle.accepted.proofs.Accepted.{automata_sound};

use super::automata::Automata;
use book::record::{AutomatonBody, Word};
use fields::automaton::{automaton_at, location_at};
use machine::Machine;
use machine::stance::StanceInfo;
use moments::moment::{Moment, may_ask_parts};
use moments::window::is_within_bound;
use places::table::Places;

impl<'a> Automata<'a> {
    // The machine of an automaton book that the check has accepted.
    pub fn over(book: &'a [u8]) -> Automata<'a>
        requires { check_of book.now ≡ Ok Automaton }
        ensures { result.book.now ≡ book.now }
    {
        let places = Places::over::<AutomatonBody>(book);
        Automata { book, places }
    }
}

impl Machine for Automata<'_> {
    ghost meaning = { λ m. automata_meaning (read_automata m.book.now) };

    ghost sound = { λ m. automata_sound m.book.now m.bytes m.accepted };

    fn stations(&self) -> usize {
        self.places.stations()
    }

    fn scale(&self, station: usize) -> Option<u32> {
        let place = self.places.place_of_station(station)?;
        Some(automaton_at(self.book, self.places.station_at(place)).scale)
    }

    fn opening(&self, station: usize) -> Option<u32> {
        let place = self.places.place_of_station(station)?;
        let opening = automaton_at(self.book, self.places.station_at(place)).opening;
        Some(u32::from(self.places.place_of(opening)))
    }

    fn stance(&self, station: usize, stance: u32) -> Option<StanceInfo> {
        let place = self.places.place_of_station(station)?;
        let k = self.places.phase_at(place, stance as usize)?;
        let location = location_at(self.book, k);
        Some(StanceInfo {
            phase: location.phase,
            sent: location.sent,
            busy: location.committed,
            lifetime: location.bound,
            next_move: self.next_move(place, k),
        })
    }

    fn hearing(
        &self,
        station: usize,
        stance: u32,
        word: Word,
        elapsed: u64,
        per_tick: u64,
    ) -> Option<Option<u32>> {
        let place = self.places.place_of_station(station)?;
        let k = self.places.phase_at(place, stance as usize)?;
        let scale = automaton_at(self.book, self.places.station_at(place)).scale;
        if !may_ask_parts(scale, per_tick) {
            return None;
        }
        let clock = Moment {
            numerator: elapsed,
            denominator: per_tick,
        };
        if !is_within_bound(location_at(self.book, k).bound, clock) {
            return Some(None);
        }
        Some(self.heard(place, k, word, clock))
    }
}
