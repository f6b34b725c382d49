// The records of a model book.
ghost use Rattle.std.specs.Prelude.{◌≡◌, ℕ, ◌+◌, ◌<◌, ◌&&◌, List, length, Option, ◌==◌};
ghost use Rattle.book.specs.Bytes.{zeros};
ghost use Rattle.records.specs.Fields.{fraction_in};
ghost use Rattle.book.specs.declared.term.BookKind.TheVariants.{Model};
ghost use Rattle.records.specs.Model.{station_in, phase_in, phase_laid, edge_in, edge_laid, word_in, model_body, encoded_model};
ghost use Rattle.std.proofs.Common.{rules};

use super::fields::{
    high_or, is_path_laid, is_window_laid, marks_of, path_in, path_row, window_by,
};
use super::rows::Rows;
use book::bytes::{Parts, are_zero, byte_at, four_at, two_at};
use book::record::{Edge, Fraction, ModelBody, Phase, Record, Station, Word};
use book::term::{BookKind, Kind};

// A fraction in eight bytes from i on.
fn fraction_at(rest: &[u8], i: u8) -> Fraction
    requires { i < 200 }
    ensures { result ≡ fraction_in rest.now (i + 4) }
{
    Fraction {
        numerator: four_at(rest, i),
        denominator: four_at(rest, i + 4),
    }
}

pub fn station_in(parts: &Parts<'_>) -> Station
    ensures { result ≡ station_in parts.now.rest.now }
{
    Station {
        first_phase: two_at(parts.rest, 0),
        opening: two_at(parts.rest, 2),
    }
}

pub fn phase_in(parts: &Parts<'_>) -> Phase
    ensures { result ≡ phase_in parts.now.rest.now }
{
    Phase {
        first_edge: two_at(parts.rest, 0),
        next_phase: two_at(parts.rest, 2),
        first_word: two_at(parts.rest, 4),
        lifetime: fraction_at(parts.rest, 8),
    }
}

pub fn edge_in(parts: &Parts<'_>) -> Edge
    ensures { result ≡ edge_in parts.now.marks parts.now.rest.now }
{
    let rest = parts.rest;
    Edge {
        goal: two_at(rest, 0),
        port: byte_at(rest, 2),
        lowest: byte_at(rest, 3),
        highest: byte_at(rest, 4),
        window: window_by(parts.marks, fraction_at(rest, 8), fraction_at(rest, 16)),
    }
}

pub fn word_in(parts: &Parts<'_>) -> Word
    ensures { result ≡ word_in parts.now.rest.now }
{
    Word {
        port: byte_at(parts.rest, 0),
        value: byte_at(parts.rest, 1),
    }
}

// Whether there are no marks, and nothing in the bytes from i on.
fn is_blank_from(parts: &Parts<'_>, i: usize) -> bool
    ensures { result ≡ (parts.now.marks == 0 && zeros parts.now.rest.now i 28) }
{
    parts.marks == 0 && are_zero(parts.rest, i, 28)
}

fn is_phase_laid(parts: &Parts<'_>) -> bool
    ensures { result ≡ phase_laid parts.now.marks parts.now.rest.now }
{
    parts.marks == 0 && are_zero(parts.rest, 6, 8) && are_zero(parts.rest, 16, 28)
}

fn is_edge_laid(parts: &Parts<'_>) -> bool
    ensures { result ≡ edge_laid parts.now.marks parts.now.rest.now }
{
    is_window_laid(parts.marks, are_zero(parts.rest, 16, 24))
        && are_zero(parts.rest, 5, 8)
        && are_zero(parts.rest, 24, 28)
}

fn station_row(next: u16, station: Station) -> [u8; 32]
    ensures { result ≡ encoded_model (record { next = next; body = ModelBody.Station station }) }
{
    let [n0, n1] = next.to_be_bytes();
    let [p0, p1] = station.first_phase.to_be_bytes();
    let [o0, o1] = station.opening.to_be_bytes();
    row![
        u8::from(Kind::Station), 0, n0, n1, p0, p1, o0, o1;
        0, 0, 0, 0, 0, 0, 0, 0;
        0, 0, 0, 0, 0, 0, 0, 0;
        0, 0, 0, 0, 0, 0, 0, 0
    ]
}

fn phase_row(next: u16, phase: Phase) -> [u8; 32]
    ensures { result ≡ encoded_model (record { next = next; body = ModelBody.Phase phase }) }
{
    let [n0, n1] = next.to_be_bytes();
    let [e0, e1] = phase.first_edge.to_be_bytes();
    let [p0, p1] = phase.next_phase.to_be_bytes();
    let [w0, w1] = phase.first_word.to_be_bytes();
    let [u0, u1, u2, u3] = phase.lifetime.numerator.to_be_bytes();
    let [d0, d1, d2, d3] = phase.lifetime.denominator.to_be_bytes();
    row![
        u8::from(Kind::Phase), 0, n0, n1, e0, e1, p0, p1;
        w0, w1, 0, 0, u0, u1, u2, u3;
        d0, d1, d2, d3, 0, 0, 0, 0;
        0, 0, 0, 0, 0, 0, 0, 0
    ]
}

fn edge_row(next: u16, edge: Edge) -> [u8; 32]
    ensures { result ≡ encoded_model (record { next = next; body = ModelBody.Edge edge }) }
{
    let none = Fraction {
        numerator: 0,
        denominator: 0,
    };
    let low = edge.window.low;
    let high = high_or(none, edge.window.high);
    let [n0, n1] = next.to_be_bytes();
    let [g0, g1] = edge.goal.to_be_bytes();
    let [a0, a1, a2, a3] = low.numerator.to_be_bytes();
    let [b0, b1, b2, b3] = low.denominator.to_be_bytes();
    let [c0, c1, c2, c3] = high.numerator.to_be_bytes();
    let [d0, d1, d2, d3] = high.denominator.to_be_bytes();
    let marks = marks_of(edge.window);
    row![
        u8::from(Kind::Edge), marks, n0, n1, g0, g1, edge.port, edge.lowest;
        edge.highest, 0, 0, 0, a0, a1, a2, a3;
        b0, b1, b2, b3, c0, c1, c2, c3;
        d0, d1, d2, d3, 0, 0, 0, 0
    ]
}

fn word_row(next: u16, word: Word) -> [u8; 32]
    ensures { result ≡ encoded_model (record { next = next; body = ModelBody.Word word }) }
{
    let [n0, n1] = next.to_be_bytes();
    row![
        u8::from(Kind::Word), 0, n0, n1, word.port, word.value, 0, 0;
        0, 0, 0, 0, 0, 0, 0, 0;
        0, 0, 0, 0, 0, 0, 0, 0;
        0, 0, 0, 0, 0, 0, 0, 0
    ]
}

impl Rows for ModelBody {
    ghost kind = { Model };

    ghost body = { model_body };

    ghost encoded = { encoded_model };

    ghost long = { Prim.search rules };

    fn kind() -> BookKind {
        BookKind::Model
    }

    fn body_in(parts: &Parts<'_>) -> Option<ModelBody> {
        match Kind::try_from(parts.kind).ok()? {
            Kind::Station => is_blank_from(parts, 4).then_some(ModelBody::Station(station_in(
                parts,
            ))),
            Kind::Phase => is_phase_laid(parts).then_some(ModelBody::Phase(phase_in(parts))),
            Kind::Edge => is_edge_laid(parts).then_some(ModelBody::Edge(edge_in(parts))),
            Kind::Word => is_blank_from(parts, 2).then_some(ModelBody::Word(word_in(parts))),
            Kind::Path => is_path_laid(parts).then_some(ModelBody::Path(path_in(parts))),
        }
    }

    fn encode(item: Record<ModelBody>) -> [u8; 32]
        ensures { result ≡ encoded_model item }
    {
        let next = item.next;
        match item.body {
            ModelBody::Station(station) => station_row(next, station),
            ModelBody::Phase(phase) => phase_row(next, phase),
            ModelBody::Edge(edge) => edge_row(next, edge),
            ModelBody::Word(word) => word_row(next, word),
            ModelBody::Path(path) => path_row(next, path),
        }
    }
}
