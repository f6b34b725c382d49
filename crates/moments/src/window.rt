// Which moments lie in a window, and which words an edge or a transition takes.
ghost use Rattle.std.specs.Prelude.{◌≡◌};
ghost use Rattle.semantics.specs.Times.{inside, counts};
ghost use Rattle.semantics.specs.Fits.{word_fits, label_fits, within_bound};
ghost use Rattle.moments.specs.Moments.{time_of};

use super::moment::{End, Moment};
use book::record::{Fraction, HighEnd, Label, Window, Word};
use book::term::Order;
use spans::time::Time;

// Whether the moment lies in the window.
pub fn is_inside<T: End>(window: Window<T>, moment: Moment) -> bool
    ensures { result ≡ inside T.time window (time_of moment) }
{
    let low = window.low.into();
    let is_past_low = if window.low_open {
        low.is_before(moment)
    } else {
        low.is_at_most(moment)
    };
    is_past_low
        && match window.high {
            HighEnd::Closed(high) => moment.is_at_most(high.into()),
            HighEnd::Open(high) => moment.is_before(high.into()),
            HighEnd::Absent => true,
        }
}

// Whether the moment counts in a phase with this lifetime: those below the lifetime under step
// first, and up to and with it under word first.
pub fn does_count(order: Order, lifetime: Option<Fraction>, moment: Moment) -> bool
    ensures { result ≡ counts order lifetime (time_of moment) }
{
    lifetime.is_none_or(|life| match order {
        Order::StepFirst => moment.is_before(life.into()),
        Order::WordFirst => moment.is_at_most(life.into()),
    })
}

// Whether the clock is not past the bound, if there is one.
pub fn is_within_bound(bound: Option<u64>, clock: Moment) -> bool
    ensures { result ≡ within_bound bound (time_of clock) }
{
    bound.is_none_or(|bound| clock.is_at_most(bound.into()))
}

// Whether the word is one of those on the port with a value from lowest to highest.
pub fn is_among(word: Word, port: u8, lowest: u8, highest: u8) -> bool
    ensures { result ≡ word_fits port lowest highest word.port word.value }
{
    port == word.port && (lowest..=highest).contains(&word.value)
}

// Whether a transition with that label hears the word.
pub fn does_hear(label: Label, word: Word) -> bool
    ensures { result ≡ label_fits label word.port word.value }
{
    match label {
        Label::Hears {
            port,
            lowest,
            highest,
        } => is_among(word, port, lowest, highest),
        _ => false,
    }
}
