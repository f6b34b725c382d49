// The records of a model book.
ghost use Rattle.std.specs.Prelude.{◌≡◌};
ghost use Rattle.fields.specs.Fields.{station_at, phase_at, edge_at, is_endless, lifetime_at};

use book::bytes::parts_at;
use book::record::{Edge, Fraction, Phase, Station};
use records::model::{edge_in, phase_in, station_in};

pub fn station_at(book: &[u8], k: u16) -> Station
    ensures { result ≡ station_at book.now k }
{
    station_in(&parts_at(book, k))
}

pub fn phase_at(book: &[u8], k: u16) -> Phase
    ensures { result ≡ phase_at book.now k }
{
    phase_in(&parts_at(book, k))
}

pub fn edge_at(book: &[u8], k: u16) -> Edge
    ensures { result ≡ edge_at book.now k }
{
    edge_in(&parts_at(book, k))
}

// Whether the lifetime is endless: 0/0.
pub fn is_endless(time: Fraction) -> bool
    ensures { result ≡ is_endless time }
{
    time.numerator == 0 && time.denominator == 0
}

// The lifetime of a phase; an endless one has none.
pub fn lifetime_at(book: &[u8], k: u16) -> Option<Fraction>
    ensures { result ≡ lifetime_at book.now k }
{
    let time = phase_at(book, k).lifetime;
    (!is_endless(time)).then_some(time)
}
