// What an edge or a hearing transition takes, and whether two take one word at one moment.
ghost use Rattle.std.specs.Prelude.{◌≡◌};
ghost use Rattle.spans.specs.Hearings.{edge_hearing, transition_hearing, meet};

use super::time::Time;
use super::window::{guard_that_counts, share_moment, window_that_counts};
use book::record::{Edge, Fraction, Label, Transition, Window};
use book::term::Order;

// The words on a port with a value from lowest to highest, at the moments of a window.
#[derive(Clone, Copy)]
pub struct Hearing<T> {
    pub port: u8,
    pub lowest: u8,
    pub highest: u8,
    pub window: Window<T>,
}

impl Hearing<Fraction> {
    // What an edge takes in a phase with this lifetime.
    pub fn of_edge(order: Order, lifetime: Option<Fraction>, edge: &Edge) -> Hearing<Fraction>
        ensures { result ≡ edge_hearing order lifetime edge.now }
    {
        Hearing {
            port: edge.port,
            lowest: edge.lowest,
            highest: edge.highest,
            window: window_that_counts(order, lifetime, edge.window),
        }
    }
}

impl Hearing<u64> {
    // What a transition takes in a location with this bound; none unless it hears.
    pub fn of_transition(bound: Option<u64>, transition: &Transition) -> Option<Hearing<u64>>
        ensures { result ≡ transition_hearing bound transition.now }
    {
        match transition.label {
            Label::Hears {
                port,
                lowest,
                highest,
            } => Some(Hearing {
                port,
                lowest,
                highest,
                window: guard_that_counts(bound, transition.guard),
            }),
            _ => None,
        }
    }
}

impl<T: Time> Hearing<T> {
    // Whether both take some word at some moment.
    pub fn shares_word(self, other: Hearing<T>) -> bool
        ensures { result ≡ meet T.Time.time self other }
    {
        self.port == other.port
            && self.lowest <= self.highest
            && self.lowest <= other.highest
            && other.lowest <= self.highest
            && other.lowest <= other.highest
            && share_moment(self.window, other.window)
    }
}
