// What is printed of a call.
use node::Answer;
use std::{fmt, io};

pub(crate) const UNTOUCHED: u8 = 0xEE;

// Numbers of so many digits each.
#[derive(Clone, Copy)]
struct Hex<'a> {
    numbers: &'a [u8],
    width: usize,
}

impl<'a> fmt::Display for Hex<'a> {
    fn fmt<W: fmt::Write>(&self, f: &mut fmt::Formatter<W>) -> fmt::Result {
        let width = self.width;
        for n in self.numbers {
            write!(f, "{n:0width$x}")?;
        }
        Ok(())
    }
}

// The answer, the board as it was left, the bytes written, 16 a line, and whether the rest of the output is as it was.
pub(crate) fn told(
    rt: &impl Print,
    a: Answer,
    out: &[u8],
    marks: &[u8],
    statuses: &[u8],
) -> io::Result<()> {
    match a.refusal {
        0 => print!(rt; "  accepted")?,
        n => print!(rt; "  refused {n}")?,
    }
    print!(rt;
        "; messages {:x}; bytes {:x}; matches {:x}",
        a.messages, a.bytes, a.matches
    )?;
    let node = a.node;
    let block = node.automatic;
    println!(rt;
        "; record {:012x} {:x} {:016x} {:x}",
        node.id, node.state, block.start, block.k
    )?;
    let marks = Hex {
        numbers: marks,
        width: 1,
    };
    let statuses = Hex {
        numbers: statuses,
        width: 1,
    };
    println!(rt; "  marks {marks}; statuses {statuses}")?;
    let (written, rest) = out.split_at(a.bytes.min(out.len()));
    for numbers in written.chunks(16) {
        println!(rt; "  {}", Hex { numbers, width: 2 })?;
    }
    if rest.iter().all(|b| *b == UNTOUCHED) {
        println!(rt; "  rest kept")
    } else {
        println!(rt; "  rest CHANGED")
    }
}
