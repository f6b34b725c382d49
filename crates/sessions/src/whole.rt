// A script, played on the net of a whole book.
use super::{Broken, play};
use automaton::automata::Automata;
use book::term::{BookKind, Path};
use book_check::check;
use machine::Machine;
use model::model::Model;
use std::alloc::Global;
use std::io::{BufRead, Write};
use structure::contents::{order, paths};

const NO_PATH: Path = Path {
    sender: 0,
    sender_port: 0,
    hearer: 0,
    hearer_port: 0,
};

// The book's own paths. They come into a lent list, since reading a book uses no heap.
fn own_paths(heap: Global, book: &[u8]) -> Result<Vec<Path>, Broken> {
    let mut list = [NO_PATH; 2000];
    let count = paths(book, &mut list).map_err(Broken::Unlawful)?;
    let mut own = Vec::new(heap);
    for path in list.iter().take(count) {
        own.push(*path)?;
    }
    Ok(own)
}

// Plays a script on nets over a book's machine, with the book's order, and its paths at first.
fn play_over<M: Machine + Copy + Drop, B: BufRead + Drop, W: Write>(
    heap: Global,
    book: &[u8],
    machine: M,
    script: B,
    out: &mut W,
) -> Result<(), Broken> {
    let paths = own_paths(heap, book)?;
    let order = order(book).map_err(Broken::Unlawful)?;
    play(heap, machine, order, paths, script, out)
}

// Plays a script on nets over a lawful book; refuses any other.
pub fn play_book<B: BufRead + Drop, W: Write>(
    heap: Global,
    book: &[u8],
    script: B,
    out: &mut W,
) -> Result<(), Broken> {
    match check(book).map_err(Broken::Unlawful)? {
        BookKind::Model => play_over(heap, book, Model::over(book), script, out),
        BookKind::Automaton => play_over(heap, book, Automata::over(book), script, out),
    }
}
