// A trial file in, a line an entry out: what the box does with messages, one after another.
#![tactic(auto)]

mod entries;
mod files;
mod lines;
mod run;

ghost use Rattle.std.specs.Prelude.{◌≡◌, ◌≤◌, length};
ghost use Rattle.text.specs.Text.{filled_at, end_at, wrote, laid_over};
ghost use Rattle.replay.specs.Lines.{text_of};

pub use entries::{Entries, Entry};
pub use files::good_file;
use text::Page;

// How many ports the box of a trial file has.
pub const PORTS: u8 = 4;

// Puts the text of a file into text, as much of it as fits, and answers how many bytes that took.
#[tactic(auto, using(text::proofs::Parts::page_ends))]
pub fn replay(file: &[u8], text: &mut [u8]) -> usize
    ensures value { result ≡ end_at 0 (text_of file.now) text.old }
    ensures text_after { text.new ≡ filled_at 0 (text_of file.now) text.old }
{
    let mut page = Page {
        skip: 0,
        at: 0,
        text,
    };
    put_text(file, &mut page);
    page.at
}

// Puts the whole text of a file at the start of text, which is longer than any file's, and answers how long the text is.
pub fn whole(file: &[u8], text: &mut [u8; 65536]) -> usize
    ensures value { result ≡ length (text_of file.now) }
    ensures text_after { text.new ≡ laid_over (text_of file.now) text.old }
{
    replay(file, text)
}

// Puts the text of a file on a page.
#[tactic(auto, unfolding(crate::specs::Lines::text_of))]
fn put_text(file: &[u8], page: &mut Page)
    requires { page.old.at ≤ length page.old.text.now }
    ensures { page.new ≡ wrote page.old (text_of file.now) }
{
    match Entries::of(file) {
        Some(entries) => run::put_lines(entries, page),
        None => page.put(b"bad file\n"),
    }
}
