// Puts a board through the cases of a file, a command a line, and prints each line and what came of it.
#![tactic(auto)]

mod boards;
mod commands;
mod report;

use boards::{Bench, Benches};
use case_files::Kind;
use commands::Command;
use std::io;

fn main(rt: HostRuntime) -> io::Result<()> {
    let mut file = [0; 65536];
    let length = streams::read_full(&mut rt.stdin(), &mut file);
    each_line(&rt, &file[..length])
}

// A last line that no new line ends is not run. gateway_cases walks its file alike: one function for both would be public, and no contract says what it prints on the way.
fn each_line(rt: &impl Print, file: &[u8]) -> io::Result<()> {
    let mut benches = Benches {
        now: Bench::bare(),
        kept: Bench::bare(),
    };
    for (number, line) in (1..).zip(file.split_inclusive(|b| *b == b'\n')) {
        if let Some(line) = line.strip_suffix(b"\n") {
            step(rt, &mut benches, line, number)?;
        }
    }
    Ok(())
}

fn step(rt: &impl Print, benches: &mut Benches, line: &[u8], number: u64) -> io::Result<()> {
    let kind = Kind::of(line);
    if kind == Kind::PassedOver {
        return Ok(());
    }
    rt.write_all(line)?;
    println!(rt; "")?;
    if kind == Kind::Title {
        return Ok(());
    }
    match Command::read(line) {
        Some(command) => benches.obey(rt, command),
        None => println!(rt; "  line {number}: cannot be read"),
    }
}
