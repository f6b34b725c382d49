// Windows of time, over any kind of time.
ghost use Rattle.std.specs.Prelude.{◌≡◌};
ghost use Rattle.spans.specs.Spans.{nearer, cut, counted, bounded, starts_later, shared_window, no_time, shares_moment};

use super::time::Time;
use book::record::{HighEnd, Window};
use book::term::Order;

// The nearer of two high ends. `HighEnd` is no `Bound` of std: the book's format has these three kinds
// of end, and the definitions of what a book means go by them.
fn nearer_end<T: Time>(high: HighEnd<T>, other: HighEnd<T>) -> HighEnd<T>
    ensures { result ≡ nearer T.Time.time high other }
{
    match (high, other) {
        (_, HighEnd::Absent) => high,
        (HighEnd::Absent, _) => other,
        (HighEnd::Closed(h) | HighEnd::Open(h), HighEnd::Closed(o)) => if h.is_at_most(o) {
            high
        } else {
            other
        },
        (HighEnd::Closed(h) | HighEnd::Open(h), HighEnd::Open(o)) => if h.is_before(o) {
            high
        } else {
            other
        },
    }
}

// The window, cut at one more high end.
fn cut_at<T: Time>(window: Window<T>, end: HighEnd<T>) -> Window<T>
    ensures { result ≡ cut T.Time.time end window }
{
    Window {
        low: window.low,
        low_open: window.low_open,
        high: nearer_end(window.high, end),
    }
}

// The window that counts in a phase with this lifetime: the moments below the lifetime under step
// first, and up to and with it under word first. Without a lifetime all count.
pub fn window_that_counts<T: Time>(
    order: Order,
    lifetime: Option<T>,
    window: Window<T>,
) -> Window<T>
    ensures { result ≡ counted T.Time.time order lifetime window }
{
    let end = lifetime.map_or(HighEnd::Absent, |life| match order {
        Order::StepFirst => HighEnd::Open(life),
        Order::WordFirst => HighEnd::Closed(life),
    });
    cut_at(window, end)
}

// The guard, cut closed at the bound of its location. Without a bound all of it counts.
pub fn guard_that_counts<T: Time>(bound: Option<T>, guard: Window<T>) -> Window<T>
    ensures { result ≡ bounded T.Time.time bound guard }
{
    cut_at(guard, bound.map_or(HighEnd::Absent, HighEnd::Closed))
}

// Whether the window holds no time.
pub fn holds_no_time<T: Time>(window: Window<T>) -> bool
    ensures { result ≡ no_time T.Time.time window }
{
    match window.high {
        HighEnd::Closed(high) => if window.low_open {
            high.is_at_most(window.low)
        } else {
            high.is_before(window.low)
        },
        HighEnd::Open(high) => high.is_at_most(window.low),
        HighEnd::Absent => false,
    }
}

// Whether a window starts later than the other, or together with it and leaves out all that the
// other does there.
fn is_later_start<T: Time>(window: Window<T>, other: Window<T>) -> bool
    ensures { result ≡ starts_later T.Time.time window other }
{
    if other.low_open && !window.low_open {
        other.low.is_before(window.low)
    } else {
        other.low.is_at_most(window.low)
    }
}

// The moments that are in both windows.
pub fn shared<T: Time>(window: Window<T>, other: Window<T>) -> Window<T>
    ensures { result ≡ shared_window T.Time.time window other }
{
    let start = if is_later_start(window, other) {
        window
    } else {
        other
    };
    Window {
        low: start.low,
        low_open: start.low_open,
        high: nearer_end(window.high, other.high),
    }
}

// Whether some moment is in both windows.
pub fn share_moment<T: Time>(window: Window<T>, other: Window<T>) -> bool
    ensures { result ≡ shares_moment T.Time.time window other }
{
    !holds_no_time(shared(window, other))
}
