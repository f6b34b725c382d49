// What the machine is asked.
ghost use Rattle.std.specs.Prelude.{◌≡◌, ◌<◌, length, Ok, slice_index};
ghost use Rattle.std.specs.Bool.{then_some};
ghost use Rattle.book.specs.declared.term.BookKind.TheVariants.{Model as ModelBook};
ghost use Rattle.semantics.specs.Books.{read_model};
ghost use Rattle.semantics.specs.Meanings.{phase_of, sent_of, model_known, model_meaning};
ghost use Rattle.book_check.specs.Check.{check_of};
ghost use Rattle.tree_records.specs.TreeRecords.{stations_in};
ghost use Rattle.accepted.proofs.Accepted.{model_sound};
ghost use Rattle.places.specs.Standing.{phases_of};
ghost use Rattle.model.specs.Records.{station_tree};

use super::model::Model;
use super::phase::{quiet_number, scales_of};
use book::record::{ModelBody, Word};
use fields::model::station_at;
use machine::Machine;
use machine::stance::StanceInfo;
use moments::moment::{Moment, may_ask_parts};
use places::table::Places;

impl<'a> Model<'a> {
    // The machine of a model book that the check has accepted.
    pub fn over(book: &'a [u8]) -> Model<'a>
        requires { check_of book.now ≡ Ok ModelBook }
        ensures { result.book.now ≡ book.now }
    {
        let places = Places::over::<ModelBody>(book);
        let scales = scales_of(book, &places);
        Model {
            book,
            places,
            scales,
        }
    }
}

impl Model<'_> {
    // The record of a stance's phase, if the station at that place has the stance.
    fn known_phase(&self, station: usize, stance: u32) -> Option<u16>
        requires { station < length (stations_in self.now.book.now) }
        ensures { result ≡ then_some (model_known (station_tree self.now.book.now station).phases (phase_of stance) (sent_of stance)) (slice_index (phases_of self.now.book.now station) (phase_of stance)) }
    {
        let k = self.places.phase_at(station, stance as usize / 4)?;
        let sent = stance as usize % 4;
        if sent == 0 {
            return Some(k);
        }
        self.word_at(k, sent)?;
        Some(k)
    }
}

impl Machine for Model<'_> {
    ghost meaning = { λ m. model_meaning (read_model m.book.now) };

    ghost sound = { λ m. model_sound m.book.now m.bytes m.accepted };

    fn stations(&self) -> usize {
        self.places.stations()
    }

    fn scale(&self, station: usize) -> Option<u32> {
        let place = self.places.place_of_station(station)?;
        Some(self.scales[place])
    }

    fn opening(&self, station: usize) -> Option<u32> {
        let place = self.places.place_of_station(station)?;
        let opening = station_at(self.book, self.places.station_at(place)).opening;
        Some(quiet_number(self.places.place_of(opening)))
    }

    fn stance(&self, station: usize, stance: u32) -> Option<StanceInfo> {
        let place = self.places.place_of_station(station)?;
        let k = self.known_phase(place, stance)?;
        if stance % 4 == 0 {
            Some(self.quiet(place, stance / 4, k))
        } else {
            Some(self.busy(place, stance / 4, stance % 4, k))
        }
    }

    fn hearing(
        &self,
        station: usize,
        stance: u32,
        word: Word,
        elapsed: u64,
        per_tick: u64,
    ) -> Option<Option<u32>> {
        let place = self.places.place_of_station(station)?;
        let k = self.known_phase(place, stance)?;
        let scale = self.scales[place];
        if !may_ask_parts(scale, per_tick) {
            return None;
        }
        if stance % 4 != 0 {
            return Some(None);
        }
        let moment = Moment {
            numerator: elapsed,
            denominator: per_tick * u64::from(scale),
        };
        Some(self.heard(place, k, word, moment))
    }
}
