// A board file on standard input, a line a call on standard output; "bad file" for any other input.
#![tactic(auto)]

ghost use Rattle.std.specs.Prelude.{OnOk};
ghost use Rattle.std.specs.Io.KnownBytes.{Appends};
ghost use Rattle.rehearsal.specs.Lines.{text_of};

use std::io::{self, Write};

fn main(rt: HostRuntime) {
    let file = streams::Input::read(&mut rt.stdin());
    if write_text(file.bytes(), &mut io::writer(&rt)).is_err() {
        let _ = eprintln!(rt; "rehearse: the output is not whole");
    }
}

// Writes the whole text of a file, in parts.
fn write_text<W: Write>(file: &[u8], out: &mut W) -> io::Result<()>
    ensures { OnOk result (Appends (W.contents out.old) (W.contents out.new) (text_of file.now)) }
{
    let part = |skip, text: &mut [u8; streams::PART]| rehearsal::part(file, skip, text);
    streams::write_parts(out, part)
}
