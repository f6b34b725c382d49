// The check of a book.

#![tactic(auto)]

ghost use Rattle.std.specs.Prelude.{◌≡◌};
ghost use Rattle.book_check.specs.Check.{check_model, check_automaton, check_of};

use automaton_moves::first_wrong_location;
use automaton_rules::{goals as automaton_goals, limits as automaton_limits};
use automaton_windows as guards;
use automaton_windows::first_empty_guard;
use book::record::{AutomatonBody, ModelBody};
use book::refusal::{Fault, Refusal};
use book::term::BookKind;
use book_scales::book_scale::{
    first_large_scale, has_large_automaton_scale, has_large_model_scale,
};
use chains::path::first_wrong_path;
use model_rules::{goals as model_goals, limits as model_limits};
use model_windows::{first_empty_window, first_shared_moment};
use structure::refuse::{refuse, whole_book};
use structure::structure;

// The rules of a model book whose structure is right.
fn check_model(book: &[u8]) -> Result<BookKind, Refusal>
    ensures { result ≡ check_model book.now }
{
    refuse(Fault::Goals, model_goals::first_outside(book))?;
    refuse(Fault::Limits, model_limits::first_out_of_range(book))?;
    refuse(Fault::Scale, first_large_scale(book))?;
    refuse(Fault::Scale, whole_book(has_large_model_scale(book)))?;
    refuse(Fault::EmptyWindow, first_empty_window(book))?;
    refuse(Fault::SharedMoment, first_shared_moment(book))?;
    refuse(Fault::Paths, first_wrong_path::<ModelBody>(book))?;
    Ok(BookKind::Model)
}

// The rules of an automaton book whose structure is right.
fn check_automaton(book: &[u8]) -> Result<BookKind, Refusal>
    ensures { result ≡ check_automaton book.now }
{
    refuse(Fault::Goals, automaton_goals::first_outside(book))?;
    refuse(Fault::Limits, automaton_limits::first_out_of_range(book))?;
    refuse(Fault::Scale, whole_book(has_large_automaton_scale(book)))?;
    refuse(Fault::EmptyWindow, first_empty_guard(book))?;
    refuse(Fault::SharedMoment, guards::first_shared_moment(book))?;
    refuse(Fault::Paths, first_wrong_path::<AutomatonBody>(book))?;
    refuse(Fault::Location, first_wrong_location(book))?;
    Ok(BookKind::Automaton)
}

// The kind of a book that is as it should be, or the first refusal.
pub fn check(book: &[u8]) -> Result<BookKind, Refusal>
    ensures { result ≡ check_of book.now }
{
    match structure(book)? {
        BookKind::Model => check_model(book),
        BookKind::Automaton => check_automaton(book),
    }
}
