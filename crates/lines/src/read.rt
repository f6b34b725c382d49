// Lines from bytes.
ghost use Rattle.std.specs.Prelude.{◌≡◌, ℕ, List, ◌∷◌, length, MatchOption};
ghost use Rattle.book.specs.Events.{event_letter};
ghost use Rattle.lines.specs.Lines.{Reads, LinesDiffer};
ghost use Rattle.lines.specs.Numbers.{Are};

use super::line::{Line, Telling, fault_from_number};
use super::number::next_number;
use book::event::{Event, EventKind};

// Numbers, each behind a space, and the line feed.
fn numbers<const N: usize>(bytes: &[u8]) -> Option<[u64; N]>
    ensures { MatchOption result ((ns : List ℕ) → length ns ≡ N → Are bytes.now ns → ⊥) (λ ns. Are bytes.now ns) }
{
    let mut numbers = [0; N];
    let mut rest = bytes;
    for number in numbers.iter_mut() {
        let (read, behind) = next_number(rest)?;
        *number = read;
        rest = behind;
    }
    if rest == b"\n".as_slice() {
        Some(numbers)
    } else {
        None
    }
}

// What is behind an event's letter.
fn read_event(kind: EventKind, bytes: &[u8]) -> Option<Line>
    ensures { Reads (event_letter kind ∷ bytes.now) result }
{
    let [station, port, value] = numbers::<3>(bytes)?;
    Some(Line::Event(Event {
        kind,
        station: u8::try_from(station).ok()?,
        port: u8::try_from(port).ok()?,
        value: u16::try_from(value).ok()?,
    }))
}

// What is behind the mark of a refusal.
fn read_refusal(bytes: &[u8]) -> Option<Line>
    ensures { Reads (45 ∷ bytes.now) result }
{
    let [number, place] = numbers::<2>(bytes)?;
    let fault = fault_from_number(u8::try_from(number).ok()?)?;
    Some(Line::Refusal(fault.at(place as usize)))
}

// What is behind the mark of a telling.
fn read_telling(bytes: &[u8]) -> Option<Line>
    ensures { Reads (61 ∷ bytes.now) result }
{
    let [phase, sent, elapsed] = numbers::<3>(bytes)?;
    Some(Line::Telling(Telling {
        phase: u16::try_from(phase).ok()?,
        sent: u8::try_from(sent).ok()?,
        elapsed,
    }))
}

// The line that has these bytes, the line feed included.
pub fn read_line(bytes: &[u8]) -> Option<Line>
    ensures { Reads bytes.now result }
{
    let (mark, rest) = bytes.split_first()?;
    match *mark {
        b'-' => read_refusal(rest),
        b'=' => read_telling(rest),
        letter => read_event(EventKind::try_from(char::from(letter)).ok()?, rest),
    }
}

// No two lines have the same bytes.
pub fn lines_differ()
    ensures { LinesDiffer }
{}
