// A trial file in, the reasons of its last entry out: a line a port, in document 02's numbers.
#![tactic(auto)]

mod entries;
mod lines;

ghost use Rattle.std.specs.Prelude.{◌≡◌, ◌≤◌, length};
ghost use Rattle.text.specs.Text.{wrote, laid_over};
ghost use Rattle.reasons.specs.Lines.{text_of};

use replay::Entries;
use text::Page;

// Puts the whole text of a file at the start of text, which is as long as the longest, and answers how long it is.
#[tactic(auto, using(text::proofs::Parts::page_ends))]
pub fn last_entry(file: &[u8], text: &mut [u8; 16]) -> usize
    ensures value { result ≡ length (text_of file.now) }
    ensures text_after { text.new ≡ laid_over (text_of file.now) text.old }
{
    let mut page = Page {
        skip: 0,
        at: 0,
        text,
    };
    put_text(&mut page, file);
    page.at
}

// Puts the text of a file on a page.
#[tactic(auto, unfolding(crate::specs::Lines::text_of))]
fn put_text(page: &mut Page, file: &[u8])
    requires { page.old.at ≤ length page.old.text.now }
    ensures { page.new ≡ wrote page.old (text_of file.now) }
{
    match Entries::of(file) {
        Some(entries) => entries::ask_last(page, entries),
        None => page.put(b"bad file\n"),
    }
}
