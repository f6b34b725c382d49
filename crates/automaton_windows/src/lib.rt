// The rules of an automaton book about the guards of its transitions.

#![tactic(auto)]

ghost use Rattle.std.specs.Prelude.{◌≡◌};
ghost use Rattle.visits.specs.Smallest.{smallest};
ghost use Rattle.chains.specs.EdgeRules.{faulty_edges};
ghost use Rattle.automaton_windows.specs.Rules.{empty_guard, hearing_at, shared_moment};

use book::bytes::{row_of, two_at};
use book::record::AutomatonBody;
use chains::edge::first_faulty_edge;
use fields::automaton::{location_at, transition_at};
use pairs::search::meets_another;
use spans::hearing::Hearing;
use spans::window::{guard_that_counts, holds_no_time};

// Whether the guard of transition t holds no time up to the bound of location l.
fn is_empty_guard(book: &[u8], l: u16, t: u16) -> bool
    ensures { result ≡ empty_guard book.now l t }
{
    let bound = location_at(book, l).bound;
    holds_no_time(guard_that_counts(bound, transition_at(book, t).guard))
}

// The smallest transition of an automaton book whose guard holds no time up to the bound.
pub fn first_empty_guard(book: &[u8]) -> Option<u16>
    ensures { result ≡ smallest (faulty_edges book.now (empty_guard book.now)) }
{
    first_faulty_edge::<AutomatonBody, _>(book, |l, t| is_empty_guard(book, l, t))
}

// The words and moments that transition t takes in location l; none unless it hears.
fn hearing_at(book: &[u8], l: u16, t: u16) -> Option<Hearing<u64>>
    ensures { result ≡ hearing_at book.now l t }
{
    Hearing::of_transition(location_at(book, l).bound, &transition_at(book, t))
}

// Whether transition t shares port, value and moment with another of its location l.
fn shares_moment(book: &[u8], l: u16, t: u16) -> bool
    ensures { result ≡ shared_moment book.now l t }
{
    let first = two_at(row_of(book, l), 4);
    meets_another::<AutomatonBody, _, _>(book, first, t, |k| hearing_at(book, l, k))
}

// The smallest hearing transition of an automaton book that shares port, value and moment with
// another of its location.
pub fn first_shared_moment(book: &[u8]) -> Option<u16>
    ensures { result ≡ smallest (faulty_edges book.now (shared_moment book.now)) }
{
    first_faulty_edge::<AutomatonBody, _>(book, |l, t| shares_moment(book, l, t))
}
