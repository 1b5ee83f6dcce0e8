// Runs the trial files whose names stand on standard input, a name a line, and prints each name and its text.
#![tactic(auto)]

use std::io::Read;
use std::rt::Files;
use std::{fs, io, str};

fn main(rt: HostRuntime) -> io::Result<()> {
    let mut names = [0; 65536];
    let length = streams::read_full(&mut rt.stdin(), &mut names);
    each_name(&rt, &names[..length])
}

// A name that no new line ends is left out.
fn each_name(rt: &(impl Files + Print), names: &[u8]) -> io::Result<()> {
    for line in names.split_inclusive(|b| *b == b'\n') {
        if let Some(name) = line.strip_suffix(b"\n") {
            rt.write_all(line)?;
            named(rt, name)?;
        }
    }
    Ok(())
}

fn named(rt: &(impl Files + Print), name: &[u8]) -> io::Result<()> {
    // A path is UTF-8 here.
    let Ok(path) = str::from_utf8(name) else {
        return println!(rt; "no such file");
    };
    match fs::open(rt, path) {
        Ok(mut file) => run(rt, &mut file),
        Err(_) => println!(rt; "no such file"),
    }
}

fn run(rt: &impl Print, reader: &mut impl Read) -> io::Result<()> {
    let file = streams::Input::read(reader);
    let mut text = [0; 65536];
    let end = replay::whole(file.bytes(), &mut text);
    rt.write_all(&text[..end])
}
