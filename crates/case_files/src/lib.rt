// Case files: a line has a command, its numbers in hexadecimal, and the bytes of a message behind a colon.
#![tactic(auto)]

mod kinds;
mod places;
mod reader;

ghost use Rattle.std.specs.Prelude.{◌≡◌, ◌==◌};
ghost use Rattle.std.specs.List.{before_first, position};
ghost use Rattle.case_files.specs.Lines.{line_in};

pub use kinds::Kind;
pub use places::Places;
use reader::Reader;

// The first four letters of the command, behind zero bytes where it has fewer; its first `count` numbers; and how many of the bytes are its message, if it has one.
#[derive(Clone, Copy)]
pub struct Line {
    pub name: [u8; 4],
    pub numbers: [u64; 15],
    pub count: usize,
    pub bytes: [u8; 512],
    pub message: Option<usize>,
}

// Reads a line up to its comment, if it can be read.
pub fn read(text: &[u8]) -> Option<Line>
    ensures { result ≡ line_in text.now }
{
    let mut reader = Reader::new();
    for b in before_comment(text) {
        reader = reader.turn(*b);
    }
    reader.line()
}

fn before_comment(text: &[u8]) -> &[u8]
    ensures { result.now ≡ before_first (λ b. b == 35) text.now }
{
    match comment_at(text) {
        Some(at) => &text[..at],
        None => text,
    }
}

fn comment_at(text: &[u8]) -> Option<usize>
    ensures { result ≡ position (λ b. b == 35) text.now }
{
    text.iter().position(|b| *b == b'#')
}
