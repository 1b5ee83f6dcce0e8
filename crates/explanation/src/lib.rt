// A trial file in, and out in words why each report was sent to a leg or held back from it.
#![tactic(auto)]

mod entries;
mod legs;
mod lines;

ghost use Rattle.std.specs.Prelude.{◌≡◌, ◌≤◌, length, drop};
ghost use Rattle.text.specs.Text.{filled_at, end_at, wrote, laid_over};
ghost use Rattle.text.specs.Parts.{part_from};
ghost use Rattle.explanation.specs.Words.{text_of};

use replay::Entries;
use text::Page;

// Puts the text of a file into text, from a byte of it on, as much as fits, and answers how many bytes that took.
#[tactic(auto, using(text::proofs::Parts::page_ends))]
pub fn explain(file: &[u8], skip: usize, text: &mut [u8]) -> usize
    ensures value { result ≡ end_at 0 (drop skip (text_of file.now)) text.old }
    ensures text_after { text.new ≡ filled_at 0 (drop skip (text_of file.now)) text.old }
{
    let mut page = Page { skip, at: 0, text };
    put_text(&mut page, file);
    page.at
}

// Puts a part of a file's text, from a byte of it on, at the start of text, and answers how long it is. The last part is the first that does not fill text.
pub fn part(file: &[u8], skip: usize, text: &mut [u8; 65536]) -> usize
    ensures value { result ≡ length (part_from skip (text_of file.now)) }
    ensures text_after { text.new ≡ laid_over (part_from skip (text_of file.now)) text.old }
{
    explain(file, skip, text)
}

// Puts the text of a file on a page.
#[tactic(auto, unfolding(crate::specs::Words::text_of))]
fn put_text(page: &mut Page, file: &[u8])
    requires { page.old.at ≤ length page.old.text.now }
    ensures { page.new ≡ wrote page.old (text_of file.now) }
{
    match Entries::of(file) {
        Some(entries) => entries::put_lines(page, entries),
        None => page.put(b"bad file\n"),
    }
}
