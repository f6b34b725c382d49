// The scales of stations and of the net.
ghost use Rattle.std.specs.Prelude.{◌≡◌, ℕ, [], ◌∷◌};
ghost use Rattle.std.specs.Iterator.{ActsAs};
ghost use Rattle.std.specs.List.{flat_map};
ghost use Rattle.semantics.specs.Scales.{life_denominators, high_denominators};
ghost use Rattle.scales.specs.Limited.{limited, grown_all};
ghost use Rattle.visits.specs.Smallest.{smallest};
ghost use Rattle.visits.specs.Visits.{faults, stations};
ghost use Rattle.book_scales.specs.Scales.{edge_denominators, phase_denominators, scale_at, station_scales, wrong_net_scale, model_scales, automaton_scales};

use super::grow::grow_along;
use book::bytes::{row_of, two_at};
use book::record::{AutomatonBody, Fraction, HighEnd, ModelBody};
use fields::automaton::automaton_at;
use fields::model::{edge_at, lifetime_at};
use links::link::Linked;
use scales::scale::grow;
use visits::rule::{Rules, first_fault};

// The scale so far, with the denominator of a lifetime.
fn with_lifetime(scale: Option<u32>, lifetime: Option<Fraction>) -> Option<u32>
    ensures { result ≡ grown_all scale (life_denominators lifetime) }
{
    lifetime.map_or(scale, |time| grow(scale, time.denominator))
}

// The scale so far, with the denominator of a high end.
fn with_high(scale: Option<u32>, high: HighEnd<Fraction>) -> Option<u32>
    ensures { result ≡ grown_all scale (high_denominators high) }
{
    high.end()
        .map_or(scale, |time| grow(scale, time.denominator))
}

// The scale so far, with the denominators of edge e.
fn with_edge(book: &[u8], scale: Option<u32>, e: u16) -> Option<u32>
    ensures { result ≡ grown_all scale (edge_denominators book.now e) }
{
    let window = edge_at(book, e).window;
    with_high(grow(scale, window.low.denominator), window.high)
}

// The scale so far, with the denominators of phase p and of its edges.
fn with_phase(book: &[u8], scale: Option<u32>, p: u16) -> Option<u32>
    ensures { result ≡ grown_all scale (phase_denominators book.now p) }
{
    let with_life = with_lifetime(scale, lifetime_at(book, p));
    let first = two_at(row_of(book, p), 4);
    grow_along::<ModelBody, _>(
        book,
        first,
        with_life,
        |so_far, e| with_edge(book, so_far, e),
    )
}

// The scale of station s of a model book; nothing where it is over the limit.
pub fn station_scale(book: &[u8], s: u16) -> Option<u32>
    ensures { result ≡ limited (scale_at book.now s) }
{
    let first = two_at(row_of(book, s), 4);
    grow_along::<ModelBody, _>(
        book,
        first,
        Some(1),
        |so_far, p| with_phase(book, so_far, p),
    )
}

#[derive(Drop)]
struct StationScales;

impl Rules for StationScales {
    ghost rule = { λ _. station_scales };

    fn station(&self, book: &[u8], place: usize, s: u16) -> bool {
        station_scale(book, s).is_none()
    }

    fn phase(&self, book: &[u8], s: u16, place: usize, p: u16) -> bool {
        false
    }

    fn edge(&self, book: &[u8], s: u16, p: u16, e: u16) -> bool {
        false
    }

    fn word(&self, book: &[u8], place: usize, w: u16) -> bool {
        false
    }
}

// The smallest station of a model book whose scale is over the limit.
pub fn first_large_scale(book: &[u8]) -> Option<u16>
    ensures { result ≡ smallest (faults book.now (station_scales book.now)) }
{
    first_fault::<ModelBody, StationScales>(&StationScales, book)
}

// Whether the scale of a book's net is over the limit, where `scale_of` gives each station's.
fn has_large_scale<R: Linked, F: Fn(u16) -> u32>(book: &[u8], scale_of: F) -> bool
    requires { (f : _) (s : _) → F.FnMut.pre f s }
    ensures { (scales : ℕ → ℕ) → ActsAs F.FnMut scale_of scales → result ≡ wrong_net_scale (flat_map (λ s. scales s ∷ []) (stations book.now)) }
{
    let scale = grow_along::<R, _>(book, two_at(book, 6), Some(1), |so_far, s| {
        grow(so_far, scale_of(s))
    });
    scale.is_none()
}

// Whether the scale of a model book's net is over the limit.
pub fn has_large_model_scale(book: &[u8]) -> bool
    ensures { result ≡ wrong_net_scale (model_scales book.now) }
{
    has_large_scale::<ModelBody, _>(book, |s| station_scale(book, s).unwrap_or(0))
}

// Whether the scale of an automaton book's net is over the limit.
pub fn has_large_automaton_scale(book: &[u8]) -> bool
    ensures { result ≡ wrong_net_scale (automaton_scales book.now) }
{
    has_large_scale::<AutomatonBody, _>(book, |a| automaton_at(book, a).scale)
}
