// Sessions that the gate plays: the script of each book, line by line, and the answers compared with
// those of a second interpreter (tools/net.py).

#![tactic(auto)]

use sessions::Broken;
use sessions::whole::play_book;
use std::fs;
use std::fs::File;
use std::io::{BufReader, BufWriter, Write};

const NAMES: [&str; 2] = ["relay", "elevator"];

fn play(rt: &HostRuntime, name: &str) -> anyhow::Result<()> {
    let book = fs::read(rt, format!(in rt.alloc(); "{name}.book")?)?;
    let script = File::open(rt, format!(in rt.alloc(); "{name}.script")?)?;
    println!(rt; "{name}")?;
    let mut out = BufWriter::new(rt.alloc(), rt.stdout())?;
    let played = play_book(
        rt.alloc(),
        &book,
        BufReader::new(rt.alloc(), script)?,
        &mut out,
    );
    out.flush()?;
    if played.is_err() {
        println!(rt; "broken off")?;
    }
    Ok(())
}

fn main(rt: HostRuntime) -> anyhow::Result<()> {
    for name in NAMES {
        play(&rt, name)?;
    }
    Ok(())
}
