// What the machine reads at a phase.
ghost use Rattle.std.specs.Prelude.{◌≡◌, ℕ, ◌<◌, false, ◌&&◌, map, length, drop, if◌then◌else◌, ◌==◌, nat_lt, slice_index};
ghost use Rattle.std.specs.Bool.{then_some};
ghost use Rattle.std.specs.Option.{unwrap_or};
ghost use Rattle.book.specs.declared.record.Word.{Word as Letter};
ghost use Rattle.book_scales.specs.Scales.{fitting_scale};
ghost use Rattle.records.specs.Heads.{order_in};
ghost use Rattle.fields.specs.Fields.{phase_at, edge_at, is_endless};
ghost use Rattle.semantics.specs.Books.{read_word, read_order};
ghost use Rattle.semantics.specs.Times.{inside, counts, itself};
ghost use Rattle.semantics.specs.Trees.{lifetime_of, edges_of};
ghost use Rattle.semantics.specs.Fits.{word_fits, edge_fits, first};
ghost use Rattle.semantics.specs.Meanings.{stance_number, move_with, quiet_stance, busy_stance};
ghost use Rattle.machine.specs.Stances.{told};
ghost use Rattle.moments.specs.Moments.{time_of};
ghost use Rattle.places.specs.Tables.{place_of, station_in};
ghost use Rattle.places.specs.Standing.{PhaseOf};
ghost use Rattle.model.specs.Records.{words_at, phase_tree};

use super::model::Model;
use book::bytes::parts_at;
use book::record::{Fraction, ModelBody, Word};
use book_scales::book_scale::station_scale;
use fields::model::{edge_at, is_endless, lifetime_at, phase_at};
use machine::stance::StanceInfo;
use moments::moment::Moment;
use moments::window::{does_count, is_among, is_inside};
use places::search::first_in_chain;
use places::table::Places;
use records::heads::order_in;
use records::model::word_in;
use scales::scale::in_ticks;
use semantics::state::Move;
use std::array;

// The scale of the station at a place; 0 where there is none. Without that test the head would be
// read as a station, with all that its bytes seem to name.
fn scale_at(book: &[u8], places: &Places, place: usize) -> u32
    ensures { result ≡ (if nat_lt place places.now.stations then fitting_scale book.now (station_in places.now place) else 0) }
{
    if place < places.stations() {
        station_scale(book, places.station_at(place)).unwrap_or(0)
    } else {
        0
    }
}

// The scales of the stations.
pub(crate) fn scales_of(book: &[u8], places: &Places) -> [u32; 16]
    ensures { (i : ℕ) → i < 16 → i < places.now.stations → slice_index result i ≡ fitting_scale book.now (station_in places.now i) }
{
    array::from_fn(|place| scale_at(book, places, place))
}

// Whether edge e takes the word at the moment, in a phase with this lifetime.
fn does_take(book: &[u8], lifetime: Option<Fraction>, word: Word, moment: Moment, e: u16) -> bool
    ensures { result ≡ (word_fits (edge_at book.now e).port (edge_at book.now e).lowest (edge_at book.now e).highest word.port word.value && (inside itself (edge_at book.now e).window (time_of moment) && counts (order_in book.now) lifetime (time_of moment))) }
{
    let edge = edge_at(book, e);
    is_among(word, edge.port, edge.lowest, edge.highest)
        && is_inside(edge.window, moment)
        && does_count(order_in(book), lifetime, moment)
}

// Whether a record of a chain that stands at place `at` is the one at that place.
fn is_at(at: usize, place: usize) -> bool
    ensures { result ≡ (at == place) }
{
    at == place
}

// The number of the stance of a phase, by its place, with no word sent.
pub(crate) fn quiet_number(place: u16) -> u32
    ensures { result ≡ stance_number place 0 }
{
    4 * u32::from(place)
}

impl Model<'_> {
    // The word at a place of those that the phase sends.
    pub(crate) fn word_at(&self, k: u16, place: usize) -> Option<Word>
        ensures { result ≡ then_some (nat_lt place (length (words_at self.now.book.now k))) (read_word self.now.book.now (slice_index (words_at self.now.book.now k) place)) }
    {
        let phase = phase_at(self.book, k);
        if is_endless(phase.lifetime) {
            return None;
        }
        let found = first_in_chain::<ModelBody, _>(
            self.book,
            phase.first_word,
            |at| is_at(at.0, place),
        )?;
        Some(word_in(&parts_at(self.book, found)))
    }

    // The move of a phase that lasts, with so many words sent.
    fn next_move(&self, place: u32, sent: u32, k: u16) -> Move
        requires low { (place < 65536) × (sent < 4) }
        ensures { result ≡ move_with place sent (place_of self.now.places (phase_at self.now.book.now k).next_phase) (map (read_word self.now.book.now) (drop sent (words_at self.now.book.now k))) }
    {
        let next = quiet_number(self.places.place_of(phase_at(self.book, k).next_phase));
        let word = self.word_at(k, sent as usize);
        let follows = if self.word_at(k, sent as usize + 1).is_some() {
            4 * place + sent + 1
        } else {
            next
        };
        Move { word, follows }
    }

    // A phase of a station with no word sent.
    pub(crate) fn quiet(&self, station: usize, place: u32, k: u16) -> StanceInfo
        requires phase { PhaseOf self.now.book.now station k }
        requires low { place < 65535 }
        requires few { station < 16 }
        ensures { result ≡ told (quiet_stance (read_order self.now.book.now) (slice_index self.now.scales station) place (phase_tree self.now.book.now station k)) }
    {
        let phase = place as u16 + 1;
        let life = phase_at(self.book, k).lifetime;
        if is_endless(life) {
            return StanceInfo {
                phase,
                sent: 0,
                busy: false,
                lifetime: None,
                next_move: None,
            };
        }
        StanceInfo {
            phase,
            sent: 0,
            busy: false,
            lifetime: Some(in_ticks(self.scales[station], life)),
            next_move: Some(self.next_move(place, 0, k)),
        }
    }

    // A phase of a station in the midst of sending.
    pub(crate) fn busy(&self, station: usize, place: u32, sent: u32, k: u16) -> StanceInfo
        requires phase { PhaseOf self.now.book.now station k }
        requires lasts { is_endless (phase_at self.now.book.now k).lifetime ≡ false }
        requires low { (place < 65535) × (sent < 4) }
        ensures { result ≡ told (busy_stance place sent (phase_tree self.now.book.now station k)) }
    {
        StanceInfo {
            phase: place as u16 + 1,
            sent: sent as u8,
            busy: true,
            lifetime: None,
            next_move: Some(self.next_move(place, sent, k)),
        }
    }

    // Where the word leads at that moment, from a phase of a station with no word sent.
    pub(crate) fn heard(&self, station: usize, k: u16, word: Word, moment: Moment) -> Option<u32>
        requires phase { PhaseOf self.now.book.now station k }
        ensures { result ≡ first (edge_fits (read_order self.now.book.now) (lifetime_of (phase_tree self.now.book.now station k)) word.port word.value (time_of moment)) (λ x. stance_number x.goal 0) (edges_of (phase_tree self.now.book.now station k)) }
    {
        let lifetime = lifetime_at(self.book, k);
        let first = phase_at(self.book, k).first_edge;
        let edge = first_in_chain::<ModelBody, _>(self.book, first, |at| {
            does_take(self.book, lifetime, word, moment, at.1)
        })?;
        Some(quiet_number(self.places.place_of(edge_at(self.book, edge).goal)))
    }
}
