// The rules of a model book about the windows of its edges.

#![tactic(auto)]

ghost use Rattle.std.specs.Prelude.{◌≡◌};
ghost use Rattle.visits.specs.Smallest.{smallest};
ghost use Rattle.chains.specs.EdgeRules.{faulty_edges};
ghost use Rattle.model_windows.specs.Rules.{hearing_at, empty_window, shared_moment};

use book::bytes::{row_of, two_at};
use book::record::{Fraction, ModelBody};
use chains::edge::first_faulty_edge;
use fields::model::{edge_at, lifetime_at};
use pairs::search::meets_another;
use records::heads::order_in;
use spans::hearing::Hearing;
use spans::window::holds_no_time;

// The words and moments that edge e takes in phase p.
fn hearing_at(book: &[u8], p: u16, e: u16) -> Hearing<Fraction>
    ensures { result ≡ hearing_at book.now p e }
{
    Hearing::of_edge(order_in(book), lifetime_at(book, p), &edge_at(book, e))
}

// The smallest edge of a model book whose window that counts holds no time.
pub fn first_empty_window(book: &[u8]) -> Option<u16>
    ensures { result ≡ smallest (faulty_edges book.now (empty_window book.now)) }
{
    first_faulty_edge::<ModelBody, _>(book, |p, e| holds_no_time(hearing_at(book, p, e).window))
}

// Whether edge e shares port, value and moment with another of its phase p.
fn shares_moment(book: &[u8], p: u16, e: u16) -> bool
    ensures { result ≡ shared_moment book.now p e }
{
    let first = two_at(row_of(book, p), 4);
    meets_another::<ModelBody, _, _>(book, first, e, |k| Some(hearing_at(book, p, k)))
}

// The smallest edge of a model book that shares port, value and moment with another of its phase.
pub fn first_shared_moment(book: &[u8]) -> Option<u16>
    ensures { result ≡ smallest (faulty_edges book.now (shared_moment book.now)) }
{
    first_faulty_edge::<ModelBody, _>(book, |p, e| shares_moment(book, p, e))
}
