// The station translator: takes books apart, judges them, gives an account, and plays scripts on
// their nets.

#![tactic(auto)]

mod session;

use book::bytes::byte_at;
use book::refusal::Refusal;
use book::term::BookKind;
use book_check::check;
use report::account::account;
use report::listing::{listing, refusal_text};
use std::alloc::{AllocError, AllocFailed};
use std::process::ExitCode;
use std::{env, fs, io};

const USAGE: &str = "usage:
  translator check BOOK   judge a book, and give an account of it or the refusal
  translator show BOOK    list every record of a book with its fields
  translator run BOOK SCRIPT
                          play a script of calls on the book's net; SCRIPT - is standard input
";

// What ends the program with status 1. What there is to say has been said before.
#[derive(Drop)]
pub enum Stop {
    Refused,
    Unable,
}

impl From<io::Error> for Stop {
    fn from(_: io::Error) -> Stop {
        Stop::Unable
    }
}

impl From<AllocError> for Stop {
    fn from(_: AllocError) -> Stop {
        Stop::Unable
    }
}

impl<T: Drop> From<AllocFailed<T>> for Stop {
    fn from(_: AllocFailed<T>) -> Stop {
        Stop::Unable
    }
}

// Says what a book is refused for, which ends the program.
fn refuse(rt: &HostRuntime, book: &[u8], refusal: Refusal) -> Result<(), Stop> {
    let text = refusal_text(rt.alloc(), book, refusal)?;
    print!(rt; "{text}")?;
    Err(Stop::Refused)
}

// Judges a book: an account where it passes, else the refusal.
fn judge(rt: &HostRuntime, book: &[u8]) -> Result<(), Stop> {
    match check(book) {
        Ok(kind) => {
            let text = account(rt.alloc(), kind, book)?;
            print!(rt; "{text}lawful\n")?;
            Ok(())
        }
        Err(refusal) => refuse(rt, book, refusal),
    }
}

// Lists the records of a book, sound or not, and then the refusal if there is one.
fn show(rt: &HostRuntime, book: &[u8]) -> Result<(), Stop> {
    if let Ok(kind) = BookKind::try_from(byte_at(book, 0)) {
        let text = listing(rt.alloc(), kind, book)?;
        print!(rt; "{text}")?;
    }
    match check(book) {
        Ok(_) => Ok(()),
        Err(refusal) => refuse(rt, book, refusal),
    }
}

// The bytes of a file, or a line that says why there are none.
fn read_book(rt: &HostRuntime, path: &str) -> Result<Vec<u8>, Stop> {
    match fs::read(rt, path) {
        Ok(bytes) => Ok(bytes),
        Err(error) => {
            eprintln!(rt; "translator: {path}: {error}")?;
            Err(Stop::Unable)
        }
    }
}

fn misused(rt: &HostRuntime) -> Result<(), Stop> {
    eprint!(rt; "translator: these arguments are not understood\n{USAGE}")?;
    Err(Stop::Unable)
}

fn run(rt: &HostRuntime) -> Result<(), Stop> {
    let mut words = env::args(rt)?;
    let _ = words.next();
    let Some(command) = words.next() else {
        print!(rt; "{USAGE}")?;
        return Ok(());
    };
    let Some(path) = words.next() else {
        return misused(rt);
    };
    let script = words.next();
    if words.next().is_some() {
        return misused(rt);
    }
    match (command.as_str(), script) {
        ("check", None) => judge(rt, &read_book(rt, &path)?),
        ("show", None) => show(rt, &read_book(rt, &path)?),
        ("run", Some(script)) => session::run(rt, &read_book(rt, &path)?, &script),
        _ => misused(rt),
    }
}

fn main(rt: HostRuntime) -> ExitCode {
    // Stays: `map_or` would name the failure before the success.
    match run(&rt) {
        Ok(()) => ExitCode::SUCCESS,
        Err(_) => ExitCode::FAILURE,
    }
}
