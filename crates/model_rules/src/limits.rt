// Numbers and counts in their ranges.
ghost use Rattle.std.specs.Prelude.{◌≡◌};
ghost use Rattle.visits.specs.Smallest.{smallest};
ghost use Rattle.visits.specs.Visits.{faults};
ghost use Rattle.model_rules.specs.Rules.{wrong_edge, limits};

use super::time::{is_wrong_high, is_wrong_lifetime, is_wrong_time};
use book::record::{Edge, ModelBody};
use fields::model::{edge_at, phase_at};
use visits::rule::{Rules, first_fault};

const MOST_STATIONS: usize = 16;

const MOST_PHASES: usize = 200;

const MOST_WORDS: usize = 4;

fn is_wrong_edge(edge: Edge) -> bool
    ensures { result ≡ wrong_edge edge }
{
    is_wrong_time(edge.window.low) || is_wrong_high(edge.window.high) || edge.highest < edge.lowest
}

#[derive(Drop)]
struct Limits;

impl Rules for Limits {
    ghost rule = { λ _. limits };

    fn station(&self, book: &[u8], place: usize, s: u16) -> bool {
        place == MOST_STATIONS
    }

    fn phase(&self, book: &[u8], s: u16, place: usize, p: u16) -> bool {
        place == MOST_PHASES || is_wrong_lifetime(phase_at(book, p).lifetime)
    }

    fn edge(&self, book: &[u8], s: u16, p: u16, e: u16) -> bool {
        is_wrong_edge(edge_at(book, e))
    }

    fn word(&self, book: &[u8], place: usize, w: u16) -> bool {
        place == MOST_WORDS
    }
}

// The smallest record of a model book with a number past its limit, or that is one too many.
pub fn first_out_of_range(book: &[u8]) -> Option<u16>
    ensures { result ≡ smallest (faults book.now (limits book.now)) }
{
    first_fault::<ModelBody, Limits>(&Limits, book)
}
