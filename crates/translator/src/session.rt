// A script, played on a book's net.
use super::{Stop, refuse};
use sessions::Broken;
use sessions::whole::play_book;
use std::fs::File;
use std::io::{BufRead, BufReader, BufWriter, Write};

// Says what broke a session off, after what it had told so far.
fn broken_off(rt: &HostRuntime, book: &[u8], script: &str, broken: Broken) -> Result<(), Stop> {
    match broken {
        Broken::Unlawful(refusal) => return refuse(rt, book, refusal),
        Broken::OutOfMemory => eprintln!(rt; "translator: {broken}")?,
        _ => eprintln!(rt; "translator: {script}: {broken}")?,
    }
    Err(Stop::Unable)
}

// Plays what is read, line by line, and writes the answers as they come.
fn play_lines<B: BufRead + Drop>(
    rt: &HostRuntime,
    book: &[u8],
    name: &str,
    lines: B,
) -> Result<(), Stop> {
    let mut out = BufWriter::new(rt.alloc(), rt.stdout())?;
    let played = play_book(rt.alloc(), book, lines, &mut out);
    out.flush()?;
    played.or_else(|broken| broken_off(rt, book, name, broken))
}

// Plays the script of that name on the net of a lawful book; `-` is standard input.
pub fn run(rt: &HostRuntime, book: &[u8], script: &str) -> Result<(), Stop> {
    if script == "-" {
        return play_lines(rt, book, script, BufReader::new(rt.alloc(), rt.stdin())?);
    }
    match File::open(rt, script) {
        Ok(file) => play_lines(rt, book, script, BufReader::new(rt.alloc(), file)?),
        Err(error) => broken_off(rt, book, script, Broken::Failed(error)),
    }
}
