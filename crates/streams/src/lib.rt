// What a program reads and writes: a whole input, and a text in parts.
#![tactic(auto)]

ghost use Rattle.std.specs.Prelude.{◌≡◌, List, ℕ, ◌≤◌, ◌<◌, ◌^◌, length, take, OnOk};
ghost use Rattle.std.specs.Io.KnownBytes.{Appends, Consumes};
ghost use Rattle.streams.specs.Parts.{GivesParts};

use std::io::{Read, Result, Write};

// One byte more than a file may have, so that a longer one is seen.
pub const MOST: usize = 65537;

// How many bytes each part of a text has but the last.
pub const PART: usize = 65536;

// What was given to a program, as much of it as it looks at.
#[derive(Drop)]
pub struct Input {
    bytes: [u8; MOST],
    length: usize,
    ghost within: { length ≤ 65537 },
}

impl Input {
    pub fn read<R: Read>(reader: &mut R) -> Input
        ensures { Consumes (R.remaining reader.old) (R.remaining reader.new) (take result.length result.bytes) }
    {
        let mut bytes = [0; MOST];
        let length = read_full(reader, &mut bytes);
        Input { bytes, length }
    }

    pub fn bytes(&self) -> &[u8]
        ensures { result.now ≡ take self.now.length self.now.bytes }
    {
        &self.bytes[..self.length]
    }
}

// Reads until the buffer is full, the input ends or a read fails, and returns how many bytes stand at the start of the buffer.
// A loop, since read_exact does not say how many bytes came before the end or a failure, and read_to_end needs a heap.
pub fn read_full<R: Read>(reader: &mut R, buf: &mut [u8]) -> usize
    ensures within { result ≤ length buf.new }
    ensures same_length { length buf.new ≡ length buf.old }
    ensures bytes { Consumes (R.remaining reader.old) (R.remaining reader.new) (take result buf.new) }
{
    let mut done = 0;
    while done < buf.len() {
        match reader.read(&mut buf[done..]) {
            Ok(n) => {
                if n == 0 {
                    return done;
                }
                done += n;
            }
            Err(_) => return done,
        }
    }
    done
}

// Writes a text in parts, from each byte at which a part begins on, up to the first that does not fill the buffer.
pub fn write_parts<W: Write, F: Fn(usize, &mut [u8; PART]) -> usize>(
    out: &mut W,
    part: F,
) -> Result<()>
    requires { F.IsAlwaysCallable part }
    ensures { (text : List ℕ) → length text < 2 ^ 64 → GivesParts (F.post part) text → OnOk result (Appends (W.contents out.old) (W.contents out.new) text) }
{
    let mut buffer = [0; PART];
    for n in 0..=usize::MAX / PART {
        let end = part(n * PART, &mut buffer).min(PART);
        out.write_all(&buffer[..end])?;
        if end < PART {
            return Ok(());
        }
    }
    Ok(())
}
