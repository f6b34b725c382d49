// The table of a book's stations and phases: the record at each place, and the place of each
// record. In an automaton book these are automata and locations.
ghost use Rattle.std.specs.Prelude.{◌≡◌, ◌+◌, ◌<◌, ◌≤◌, true, length, is_some, slice_index, slice_set};
ghost use Rattle.visits.specs.Visits.{phases};
ghost use Rattle.places.specs.Tables.{listed, placed, places_of, row_in, place_asked, station_in, phase_in, place_of};

use book::bytes::{row_of, two_at};
use links::link::Linked;
use visits::visit::followed;

// The value at place i of a table, unless that is past its end.
// Stays: with `get_mut` a proof knows the length of the table afterwards, and no value in it.
fn put(table: &mut [u16], i: usize, value: u16)
    ensures { table.new ≡ slice_set table.old i value }
{
    if i < table.len() {
        table[i] = value;
    }
}

// The phases of a station into the records from slot `used` on, and the place of each beside it;
// answers how many they are.
// Stays: the slots in use are those of all stations before, whose phases share one table.
fn put_phases<R: Linked>(
    book: &[u8],
    s: u16,
    used: usize,
    records: &mut [u16],
    places: &mut [u16],
) -> usize
    requires few { used ≤ 32000 }
    ensures count { result ≡ length (phases book.now s) }
    ensures few { result ≤ 2000 }
    ensures listing { records.new ≡ listed records.old used (phases book.now s) }
    ensures placing { places.new ≡ placed places.old 0 (phases book.now s) }
{
    let mut count = 0;
    for (i, k) in followed::<R>(book, two_at(row_of(book, s), 4)).enumerate() {
        put(records, used + i, k);
        put(places, usize::from(k), i as u16);
        count = i + 1;
    }
    count
}

// The value at place i of a table; 0 past its end.
fn get(table: &[u16], i: usize) -> u16
    ensures { result ≡ slice_index table.now i }
{
    table.get(i).copied().unwrap_or(0)
}

// A station: the number of its record, the slot at which the records of its phases begin, and how
// many they are; all 0 for no station.
#[derive(Clone, Copy, Default)]
pub struct StationRow {
    number: u16,
    start: u16,
    count: u16,
}

// Stations count from place 0. `rows` tells of each station, and `records` has the phases' records,
// station by station. `places` has the place of each phase in its station, by its record.
#[derive(Clone, Copy)]
pub struct Places {
    stations: usize,
    rows: [StationRow; 16],
    // Stays: a machine uses no heap, and a book has at most 2,000 records.
    records: [u16; 2000],
    places: [u16; 2001],
}

impl Places {
    // The places of a book: of its first 16 stations, and none where the bytes are longer than any
    // book.
    pub fn over<R: Linked>(book: &[u8]) -> Places
        ensures { result ≡ places_of book.now }
    {
        let mut rows = [StationRow::default(); 16];
        // Stays: as the fields.
        let mut records = [0; 2000];
        let mut places = [0; 2001];
        let mut stations = 0;
        let mut used = 0;
        for (i, s) in followed::<R>(book, two_at(book, 6)).take(16).enumerate() {
            let count = put_phases::<R>(book, s, used, &mut records, &mut places);
            rows[i] = StationRow {
                number: s,
                start: used as u16,
                count: count as u16,
            };
            stations = i + 1;
            used += count;
        }
        Places {
            stations,
            rows,
            records,
            places,
        }
    }

    // The row of the station at a place.
    fn row(&self, station: usize) -> StationRow
        ensures { result ≡ row_in self.now station }
    {
        self.rows.get(station).copied().unwrap_or_default()
    }

    // The number of stations.
    pub fn stations(&self) -> usize
        ensures { result ≡ self.now.stations }
    {
        self.stations
    }

    // The place of the station of that number; none if there is no such station.
    pub fn place_of_station(&self, station: usize) -> Option<usize>
        ensures { result ≡ place_asked self.now.stations station }
    {
        if station == 0 || station > self.stations {
            None
        } else {
            Some(station - 1)
        }
    }

    // The record of the station at a place.
    pub fn station_at(&self, station: usize) -> u16
        ensures { result ≡ station_in self.now station }
    {
        self.row(station).number
    }

    // The record of the phase at a place of a station; none past its last phase.
    pub fn phase_at(&self, station: usize, place: usize) -> Option<u16>
        ensures value { result ≡ phase_in self.now station place }
        ensures low { is_some result ≡ true → place < 65535 }
    {
        let row = self.row(station);
        if place < usize::from(row.count) {
            Some(get(&self.records, usize::from(row.start) + place))
        } else {
            None
        }
    }

    // The place in its station of the phase of that record.
    pub fn place_of(&self, phase: u16) -> u16
        ensures { result ≡ place_of self.now phase }
    {
        get(&self.places, usize::from(phase))
    }
}
