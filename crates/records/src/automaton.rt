// The records of an automaton book.
ghost use Rattle.std.specs.Prelude.{◌≡◌, ℕ, List, Option};
ghost use Rattle.book.specs.declared.term.BookKind.TheVariants.{Automaton as automata};
ghost use Rattle.records.specs.Automaton.{automaton_in, automaton_laid, bound_in, location_in, location_laid, label_in, label_laid, transition_in, transition_laid, automaton_body, label_byte, label_port, label_lowest, label_highest, automaton_marks, encoded_automaton};
ghost use Rattle.std.proofs.Common.{rules};

use super::fields::{
    high_or, is_marked, is_path_laid, is_window_laid, marks_of, path_in, path_row, window_by,
};
use super::rows::Rows;
use book::bytes::{Parts, are_zero, byte_at, eight_at, four_at, two_at};
use book::record::{Automaton, AutomatonBody, Label, Location, Record, Transition};
use book::term::{BookKind, Kind};

pub fn automaton_in(parts: &Parts<'_>) -> Automaton
    ensures { result ≡ automaton_in parts.now.rest.now }
{
    Automaton {
        first_location: two_at(parts.rest, 0),
        opening: two_at(parts.rest, 2),
        scale: four_at(parts.rest, 4),
    }
}

fn bound_in(parts: &Parts<'_>) -> Option<u64>
    ensures { result ≡ bound_in parts.now.marks parts.now.rest.now }
{
    is_marked(parts.marks, 2).then(|| eight_at(parts.rest, 8))
}

// Inlined where it is read: the tests of a layout then need none of the fields.
#[inline(always)]
pub fn location_in(parts: &Parts<'_>) -> Location
    ensures { result ≡ location_in parts.now.marks parts.now.rest.now }
{
    Location {
        first_transition: two_at(parts.rest, 0),
        phase: two_at(parts.rest, 2),
        sent: byte_at(parts.rest, 4),
        committed: is_marked(parts.marks, 1),
        bound: bound_in(parts),
    }
}

fn is_automaton_laid(parts: &Parts<'_>) -> bool
    ensures { result ≡ automaton_laid parts.now.marks parts.now.rest.now }
{
    parts.marks == 0 && are_zero(parts.rest, 8, 28)
}

fn is_location_laid(parts: &Parts<'_>) -> bool
    ensures { result ≡ location_laid parts.now.marks parts.now.rest.now }
{
    parts.marks <= 3
        && (is_marked(parts.marks, 2) || are_zero(parts.rest, 8, 16))
        && are_zero(parts.rest, 5, 8)
        && are_zero(parts.rest, 16, 28)
}

// The label: byte 6 of a transition is 0 where it is silent, 1 where it hears, and 2 where it sends.
fn label_in(rest: &[u8]) -> Label
    ensures { result ≡ label_in rest.now }
{
    let port = byte_at(rest, 3);
    match byte_at(rest, 2) {
        0 => Label::Silent,
        1 => Label::Hears {
            port,
            lowest: byte_at(rest, 4),
            highest: byte_at(rest, 5),
        },
        _ => Label::Sends {
            port,
            value: byte_at(rest, 4),
        },
    }
}

// Whether the label is one of the three; silent has neither port nor value, and sends has one value.
fn is_label_laid(rest: &[u8]) -> bool
    ensures { result ≡ label_laid rest.now }
{
    match byte_at(rest, 2) {
        0 => are_zero(rest, 3, 6),
        1 => true,
        2 => byte_at(rest, 4) == byte_at(rest, 5),
        _ => false,
    }
}

// Inlined where it is read: the tests of a layout then need none of the fields.
#[inline(always)]
pub fn transition_in(parts: &Parts<'_>) -> Transition
    ensures { result ≡ transition_in parts.now.marks parts.now.rest.now }
{
    let rest = parts.rest;
    Transition {
        goal: two_at(rest, 0),
        label: label_in(rest),
        resets: byte_at(rest, 6) == 1,
        guard: window_by(parts.marks, eight_at(rest, 8), eight_at(rest, 16)),
    }
}

fn is_transition_laid(parts: &Parts<'_>) -> bool
    ensures { result ≡ transition_laid parts.now.marks parts.now.rest.now }
{
    is_window_laid(parts.marks, are_zero(parts.rest, 16, 24))
        && is_label_laid(parts.rest)
        && byte_at(parts.rest, 6) <= 1
        && are_zero(parts.rest, 7, 8)
        && are_zero(parts.rest, 24, 28)
}

fn automaton_row(next: u16, automaton: Automaton) -> [u8; 32]
    ensures { result ≡ encoded_automaton (record { next = next; body = AutomatonBody.Automaton automaton }) }
{
    let [n0, n1] = next.to_be_bytes();
    let [l0, l1] = automaton.first_location.to_be_bytes();
    let [o0, o1] = automaton.opening.to_be_bytes();
    let [s0, s1, s2, s3] = automaton.scale.to_be_bytes();
    row![
        u8::from(Kind::Station), 0, n0, n1, l0, l1, o0, o1;
        s0, s1, s2, s3, 0, 0, 0, 0;
        0, 0, 0, 0, 0, 0, 0, 0;
        0, 0, 0, 0, 0, 0, 0, 0
    ]
}

fn location_marks(location: Location) -> u8
    ensures { result ≡ automaton_marks (AutomatonBody.Location location) }
{
    u8::from(location.committed) + 2 * u8::from(location.bound.is_some())
}

fn location_row(next: u16, location: Location) -> [u8; 32]
    ensures { result ≡ encoded_automaton (record { next = next; body = AutomatonBody.Location location }) }
{
    let marks = location_marks(location);
    let [n0, n1] = next.to_be_bytes();
    let [t0, t1] = location.first_transition.to_be_bytes();
    let [p0, p1] = location.phase.to_be_bytes();
    let [b0, b1, b2, b3, b4, b5, b6, b7] = location.bound.unwrap_or(0).to_be_bytes();
    row![
        u8::from(Kind::Phase), marks, n0, n1, t0, t1, p0, p1;
        location.sent, 0, 0, 0, b0, b1, b2, b3;
        b4, b5, b6, b7, 0, 0, 0, 0;
        0, 0, 0, 0, 0, 0, 0, 0
    ]
}

// Bytes 6 to 9 of a transition: label, port, lowest and highest value.
fn label_row(label: Label) -> (u8, u8, u8, u8)
    ensures { result ≡ (label_byte label, label_port label, label_lowest label, label_highest label) }
{
    match label {
        Label::Silent => (0, 0, 0, 0),
        Label::Hears {
            port,
            lowest,
            highest,
        } => (1, port, lowest, highest),
        Label::Sends { port, value } => (2, port, value, value),
    }
}

fn transition_row(next: u16, transition: Transition) -> [u8; 32]
    ensures { result ≡ encoded_automaton (record { next = next; body = AutomatonBody.Transition transition }) }
{
    let marks = marks_of(transition.guard);
    let resets = u8::from(transition.resets);
    let [n0, n1] = next.to_be_bytes();
    let [g0, g1] = transition.goal.to_be_bytes();
    let (label, port, low, high) = label_row(transition.label);
    let [a0, a1, a2, a3, a4, a5, a6, a7] = transition.guard.low.to_be_bytes();
    let [b0, b1, b2, b3, b4, b5, b6, b7] = high_or(0, transition.guard.high).to_be_bytes();
    row![
        u8::from(Kind::Edge), marks, n0, n1, g0, g1, label, port;
        low, high, resets, 0, a0, a1, a2, a3;
        a4, a5, a6, a7, b0, b1, b2, b3;
        b4, b5, b6, b7, 0, 0, 0, 0
    ]
}

impl Rows for AutomatonBody {
    ghost kind = { automata };

    ghost body = { automaton_body };

    ghost encoded = { encoded_automaton };

    ghost long = { Prim.search rules };

    fn kind() -> BookKind {
        BookKind::Automaton
    }

    fn body_in(parts: &Parts<'_>) -> Option<AutomatonBody> {
        match Kind::try_from(parts.kind).ok()? {
            Kind::Station => {
                is_automaton_laid(parts).then_some(AutomatonBody::Automaton(automaton_in(parts)))
            }
            Kind::Phase => is_location_laid(parts).then_some(AutomatonBody::Location(location_in(
                parts,
            ))),
            Kind::Edge => {
                is_transition_laid(parts).then_some(AutomatonBody::Transition(transition_in(parts)))
            }
            Kind::Word => None,
            Kind::Path => is_path_laid(parts).then_some(AutomatonBody::Path(path_in(parts))),
        }
    }

    fn encode(item: Record<AutomatonBody>) -> [u8; 32]
        ensures { result ≡ encoded_automaton item }
    {
        let next = item.next;
        match item.body {
            AutomatonBody::Automaton(automaton) => automaton_row(next, automaton),
            AutomatonBody::Location(location) => location_row(next, location),
            AutomatonBody::Transition(transition) => transition_row(next, transition),
            AutomatonBody::Path(path) => path_row(next, path),
        }
    }
}
