// Checks books that are written as text. A line is a book: its name, and its rows in hex. Zeros at the end of a row are left
// out, but a row that ends with a dot is as long as it is written. The answer is a line: the name, and 'ok' or the refusal.

#![tactic(auto)]

use anyhow::anyhow;
use book_check::check;
use std::io::{BufRead, BufReader};

const ROW: usize = 32;

fn digit(code: u8) -> anyhow::Result<u8> {
    match code {
        b'0'..=b'9' => Ok(code - b'0'),
        b'a'..=b'f' => Ok(code - b'a' + 10),
        _ => Err(anyhow!("not a hex number")),
    }
}

fn push_bytes(book: &mut Vec<u8>, hex: &str) -> anyhow::Result<()> {
    for pair in hex.as_bytes().chunks(2) {
        let [high, low] = pair else {
            return Err(anyhow!("not a hex number"));
        };
        let byte = (digit(*high)? << 4) | digit(*low)?;
        book.push(byte)?;
    }
    Ok(())
}

fn push_row(book: &mut Vec<u8>, row: &str) -> anyhow::Result<()> {
    if let Some(part) = row.strip_suffix('.') {
        return push_bytes(book, part);
    }
    let full = book.len().saturating_add(ROW);
    push_bytes(book, row)?;
    book.resize(book.len().max(full), 0)?;
    Ok(())
}

// Answers a line.
fn judge(rt: &HostRuntime, line: &str) -> anyhow::Result<()> {
    let mut words = line.split(' ');
    let Some(name) = words.next() else {
        return Ok(());
    };
    let mut book = Vec::new(rt.alloc());
    for row in words {
        push_row(&mut book, row)?;
    }
    match check(&book) {
        Ok(_) => println!(rt; "{name} ok")?,
        Err(refusal) => {
            let number = u8::from(refusal.fault);
            let place = refusal.place;
            println!(rt; "{name} - {number} {place}")?;
        }
    }
    Ok(())
}

fn run(rt: &HostRuntime) -> anyhow::Result<()> {
    for line in BufReader::new(rt.alloc(), rt.stdin())?.lines(rt.alloc()) {
        judge(rt, line?.as_str())?;
    }
    Ok(())
}

fn main(rt: HostRuntime) -> anyhow::Result<()> {
    run(&rt)
}
