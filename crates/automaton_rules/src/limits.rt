// Numbers and counts in their ranges.
ghost use Rattle.std.specs.Prelude.{◌≡◌};
ghost use Rattle.visits.specs.Smallest.{smallest};
ghost use Rattle.visits.specs.Visits.{faults};
ghost use Rattle.automaton_rules.specs.Rules.{wrong_scale, most_ticks, wrong_bound, wrong_high, wrong_values, wrong_transition, limits};

use book::record::{AutomatonBody, HighEnd, Label, Transition};
use fields::automaton::{automaton_at, location_at, transition_at};
use visits::rule::{Rules, first_fault};

const MOST_AUTOMATA: usize = 16;

const MOST_SCALE: u32 = 1_000_000;

fn is_wrong_scale(scale: u32) -> bool
    ensures { result ≡ wrong_scale scale }
{
    scale == 0 || scale > MOST_SCALE
}

// The most ticks of a bound or an end of automaton a.
fn most_ticks(book: &[u8], a: u16) -> u64
    ensures { result ≡ most_ticks book.now a }
{
    1_000_000 * u64::from(automaton_at(book, a).scale)
}

fn is_wrong_bound(most: u64, bound: Option<u64>) -> bool
    ensures { result ≡ wrong_bound most bound }
{
    bound.is_some_and(|ticks| ticks > most)
}

fn is_wrong_high(most: u64, high: HighEnd<u64>) -> bool
    ensures { result ≡ wrong_high most high }
{
    is_wrong_bound(most, high.end())
}

fn has_wrong_values(label: Label) -> bool
    ensures { result ≡ wrong_values label }
{
    matches!(label, Label::Hears { lowest, highest, .. } if highest < lowest)
}

fn is_wrong_transition(most: u64, transition: Transition) -> bool
    ensures { result ≡ wrong_transition most transition }
{
    transition.guard.low > most
        || is_wrong_high(most, transition.guard.high)
        || has_wrong_values(transition.label)
}

#[derive(Drop)]
struct Limits;

impl Rules for Limits {
    ghost rule = { λ _. limits };

    fn station(&self, book: &[u8], place: usize, s: u16) -> bool {
        place == MOST_AUTOMATA || is_wrong_scale(automaton_at(book, s).scale)
    }

    fn phase(&self, book: &[u8], s: u16, place: usize, p: u16) -> bool {
        is_wrong_bound(most_ticks(book, s), location_at(book, p).bound)
    }

    fn edge(&self, book: &[u8], s: u16, p: u16, e: u16) -> bool {
        is_wrong_transition(most_ticks(book, s), transition_at(book, e))
    }

    fn word(&self, book: &[u8], place: usize, w: u16) -> bool {
        false
    }
}

// The smallest record of an automaton book with a number past its limit, or that is one too many.
pub fn first_out_of_range(book: &[u8]) -> Option<u16>
    ensures { result ≡ smallest (faults book.now (limits book.now)) }
{
    first_fault::<AutomatonBody, Limits>(&Limits, book)
}
