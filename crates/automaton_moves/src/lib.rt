// The rule of an automaton book about locations: marks, moves, resets and the guards of moves are
// as printing writes them.

#![tactic(auto)]

ghost use Rattle.std.specs.Prelude.{◌≡◌, not, length};
ghost use Rattle.visits.specs.Smallest.{smallest};
ghost use Rattle.visits.specs.Visits.{faults, followed};
ghost use Rattle.automaton_moves.specs.Rules.{hears, hears_at, no_high_end, from_on, move_ticks, wrong_transition, wrong_transition_at, misplaced, wrong_marks, wrong_moves, wrong_with, wrong_location, locations};

use book::bytes::{row_of, two_at};
use book::record::{AutomatonBody, HighEnd, Label, Location, Transition, Window};
use chains::member::{any_in_chain, chain_length};
use fields::automaton::{location_at, transition_at};
use visits::rule::{Rules, first_fault};

fn is_hearing(label: Label) -> bool
    ensures { result ≡ hears label }
{
    match label {
        Label::Silent => false,
        Label::Hears {
            port: _,
            lowest: _,
            highest: _,
        } => true,
        Label::Sends { port: _, value: _ } => false,
    }
}

// Whether transition t hears.
fn hears_at(book: &[u8], t: u16) -> bool
    ensures { result ≡ hears_at book.now t }
{
    is_hearing(transition_at(book, t).label)
}

fn has_no_high_end(high: HighEnd<u64>) -> bool
    ensures { result ≡ no_high_end high }
{
    match high {
        HighEnd::Closed(_) => false,
        HighEnd::Open(_) => false,
        HighEnd::Absent => true,
    }
}

// Whether the guard holds from those ticks on.
fn is_from_on(ticks: u64, guard: Window<u64>) -> bool
    ensures { result ≡ from_on ticks guard }
{
    !guard.low_open && guard.low == ticks && has_no_high_end(guard.high)
}

// Where the guard of a location's move starts.
fn move_ticks(location: Location) -> u64
    ensures { result ≡ move_ticks location }
{
    location.bound.unwrap_or(0)
}

// Whether the transition, from this location to that goal, has a wrong reset or, as a move, a
// wrong guard.
fn is_wrong_transition(location: Location, goal: Location, transition: Transition) -> bool
    ensures { result ≡ wrong_transition location goal transition }
{
    if is_hearing(transition.label) {
        !transition.resets
    } else {
        transition.resets == goal.committed || !is_from_on(move_ticks(location), transition.guard)
    }
}

// Whether transition t, at that place of so many, is the last and hears, or is not and does not.
fn is_misplaced(book: &[u8], count: usize, place: usize, t: u16) -> bool
    ensures { result ≡ misplaced book.now count place t }
{
    let last = place < count && count - place == 1;
    if last {
        hears_at(book, t)
    } else {
        !hears_at(book, t)
    }
}

// Whether transition t of location l has a wrong reset or guard.
fn is_wrong_at(book: &[u8], l: u16, t: u16) -> bool
    ensures { result ≡ wrong_transition_at book.now l t }
{
    let transition = transition_at(book, t);
    let goal = location_at(book, transition.goal);
    is_wrong_transition(location_at(book, l), goal, transition)
}

// Whether the location, whose transitions are the chain from `first` on, has not the moves that it
// should have.
fn has_wrong_moves(book: &[u8], location: Location, first: u16) -> bool
    ensures { result ≡ wrong_moves book.now location (followed book.now first) }
{
    if location.bound.is_some() || location.committed {
        let count = chain_length::<AutomatonBody>(book, first);
        count == 0
            || any_in_chain::<AutomatonBody, _>(
                book,
                first,
                |(place, t)| is_misplaced(book, count, place, t),
            )
    } else {
        any_in_chain::<AutomatonBody, _>(book, first, |(_, t)| !hears_at(book, t))
    }
}

// Whether the location is both bounded and committed, or is committed and hears.
fn has_wrong_marks(book: &[u8], location: Location, first: u16) -> bool
    ensures { result ≡ wrong_marks book.now location (followed book.now first) }
{
    location.bound.is_some() && location.committed
        || location.committed
            && any_in_chain::<AutomatonBody, _>(book, first, |(_, t)| hears_at(book, t))
}

// Whether location l, with those fields and the transitions from `first` on, is not as printing
// writes one.
fn is_wrong_with(book: &[u8], l: u16, fields: Location, first: u16) -> bool
    ensures { result ≡ wrong_with book.now l fields (followed book.now first) }
{
    has_wrong_marks(book, fields, first)
        || has_wrong_moves(book, fields, first)
        || any_in_chain::<AutomatonBody, _>(book, first, |(_, t)| is_wrong_at(book, l, t))
}

// Whether location l is not as printing writes one.
fn is_wrong_location(book: &[u8], l: u16) -> bool
    ensures { result ≡ wrong_location book.now l }
{
    is_wrong_with(book, l, location_at(book, l), two_at(row_of(book, l), 4))
}

#[derive(Drop)]
struct Locations;

impl Rules for Locations {
    ghost rule = { λ _. locations };

    fn station(&self, book: &[u8], place: usize, s: u16) -> bool {
        false
    }

    fn phase(&self, book: &[u8], s: u16, place: usize, p: u16) -> bool {
        is_wrong_location(book, p)
    }

    fn edge(&self, book: &[u8], s: u16, p: u16, e: u16) -> bool {
        false
    }

    fn word(&self, book: &[u8], place: usize, w: u16) -> bool {
        false
    }
}

// The smallest location of an automaton book that is not as printing writes one.
pub fn first_wrong_location(book: &[u8]) -> Option<u16>
    ensures { result ≡ smallest (faults book.now (locations book.now)) }
{
    first_fault::<AutomatonBody, Locations>(&Locations, book)
}
