// What the machine reads at a location.
ghost use Rattle.std.specs.Prelude.{◌≡◌, ◌&&◌};
ghost use Rattle.fields.specs.Fields.{transition_at};
ghost use Rattle.semantics.specs.Times.{inside, whole};
ghost use Rattle.semantics.specs.Fits.{label_fits, transition_fits, first};
ghost use Rattle.semantics.specs.LawfulAutomata.{is_move};
ghost use Rattle.semantics.specs.Meanings.{move_among};
ghost use Rattle.moments.specs.Moments.{time_of};
ghost use Rattle.places.specs.Standing.{PhaseOf};
ghost use Rattle.automaton.specs.Records.{location_tree, word_sent};

use super::automata::Automata;
use book::record::{AutomatonBody, Label, Word};
use fields::automaton::{location_at, transition_at};
use moments::moment::Moment;
use moments::window::{does_hear, is_inside};
use places::search::first_in_chain;
use semantics::state::Move;

// Whether transition t does not hear.
fn is_moving(book: &[u8], t: u16) -> bool
    ensures { result ≡ is_move (transition_at book.now t).label }
{
    match transition_at(book, t).label {
        Label::Silent => true,
        Label::Hears { .. } => false,
        Label::Sends { .. } => true,
    }
}

// Whether transition t takes the word at that time of the clock.
fn does_take(book: &[u8], word: Word, clock: Moment, t: u16) -> bool
    ensures { result ≡ (label_fits (transition_at book.now t).label word.port word.value && inside whole (transition_at book.now t).guard (time_of clock)) }
{
    let transition = transition_at(book, t);
    does_hear(transition.label, word) && is_inside(transition.guard, clock)
}

// The word that a transition with this label sends.
fn word_sent(label: Label) -> Option<Word>
    ensures { result ≡ word_sent label }
{
    match label {
        Label::Sends { port, value } => Some(Word { port, value }),
        _ => None,
    }
}

impl Automata<'_> {
    // The move of a location, by its first transition that does not hear.
    pub(crate) fn next_move(&self, station: usize, k: u16) -> Option<Move>
        requires { PhaseOf self.now.book.now station k }
        ensures { result ≡ move_among (location_tree self.now.book.now station k).transitions }
    {
        let first = location_at(self.book, k).first_transition;
        let found = first_in_chain::<AutomatonBody, _>(
            self.book,
            first,
            |at| is_moving(self.book, at.1),
        )?;
        let transition = transition_at(self.book, found);
        Some(Move {
            word: word_sent(transition.label),
            follows: u32::from(self.places.place_of(transition.goal)),
        })
    }

    // Where the word leads at that time of the clock, by the first transition that takes it.
    pub(crate) fn heard(&self, station: usize, k: u16, word: Word, clock: Moment) -> Option<u32>
        requires { PhaseOf self.now.book.now station k }
        ensures { result ≡ first (transition_fits word.port word.value (time_of clock)) (λ x. x.goal) (location_tree self.now.book.now station k).transitions }
    {
        let first = location_at(self.book, k).first_transition;
        let found = first_in_chain::<AutomatonBody, _>(self.book, first, |at| {
            does_take(self.book, word, clock, at.1)
        })?;
        Some(u32::from(self.places.place_of(transition_at(self.book, found).goal)))
    }
}
