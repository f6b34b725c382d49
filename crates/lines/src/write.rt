// Lines into a lent buffer.
ghost use Rattle.std.specs.Prelude.{◌≡◌, ◌≤◌, length};
ghost use Rattle.lines.specs.Lines.{marked, event_line, refusal_line, telling_line, line_bytes, write_answer, write_leaves};

use super::draft::Draft;
use super::line::{Line, Telling};
use book::event::Event;
use book::refusal::{Fault, Refusal};

// A mark, numbers with a space before each, and a line feed.
fn draft_of(mark: u8, numbers: &[u64]) -> Draft
    requires { length (marked mark numbers.now) ≤ 33 }
    ensures { result ≡ marked mark numbers.now }
{
    let mut draft = Draft::new();
    draft.push(mark);
    for number in numbers {
        draft.push(b' ');
        draft.push_number(*number);
    }
    draft.push(b'\n');
    draft
}

fn draft_event(event: Event) -> Draft
    ensures { result ≡ event_line event }
{
    let station = u64::from(event.station);
    let port = u64::from(event.port);
    let value = u64::from(event.value);
    draft_of(char::from(event.kind) as u8, &[station, port, value])
}

fn draft_refusal(refusal: Refusal) -> Draft
    ensures { result ≡ refusal_line refusal }
{
    let number = u64::from(u8::from(refusal.fault));
    draft_of(b'-', &[number, refusal.place as u64])
}

fn draft_telling(telling: Telling) -> Draft
    ensures { result ≡ telling_line telling }
{
    let phase = u64::from(telling.phase);
    let sent = u64::from(telling.sent);
    draft_of(b'=', &[phase, sent, telling.elapsed])
}

fn draft_line(line: Line) -> Draft
    ensures { result ≡ line_bytes line }
{
    match line {
        Line::Event(event) => draft_event(event),
        Line::Refusal(refusal) => draft_refusal(refusal),
        Line::Telling(telling) => draft_telling(telling),
    }
}

// Writes the line at the start of the buffer, and answers how many bytes it has, the line feed
// included. Where the buffer is too short it is left as it was.
pub fn write_line(line: Line, buffer: &mut [u8]) -> Result<usize, Refusal>
    ensures answer { result ≡ write_answer line buffer.old }
    ensures leaves { buffer.new ≡ write_leaves line buffer.old }
{
    let draft = draft_line(line);
    let text = draft.as_bytes();
    if buffer.len() < text.len() {
        return Err(Fault::Room.at(0));
    }
    buffer[..text.len()].copy_from_slice(text);
    Ok(text.len())
}
