// A board file in, a line a call out: what a bench hand sees when a board is put through its calls.
#![tactic(auto)]

mod bench;
mod calls;
mod files;
mod lines;

ghost use Rattle.std.specs.Prelude.{◌≡◌, ◌≤◌, length, drop};
ghost use Rattle.text.specs.Text.{filled_at, end_at, laid_over, wrote};
ghost use Rattle.text.specs.Parts.{part_from};
ghost use Rattle.rehearsal.specs.Lines.{text_of};

use bench::Bench;
pub use lines::put_line;
use text::Page;

// Puts the text of a file into text, from a byte of it on, as much as fits, and answers how many bytes that took.
#[tactic(auto, using(text::proofs::Parts::page_ends))]
pub fn rehearse(file: &[u8], skip: usize, text: &mut [u8]) -> usize
    ensures value { result ≡ end_at 0 (drop skip (text_of file.now)) text.old }
    ensures text_after { text.new ≡ filled_at 0 (drop skip (text_of file.now)) text.old }
{
    let mut page = Page { skip, at: 0, text };
    put_text(&mut page, file);
    page.at
}

fn put_text(page: &mut Page, file: &[u8])
    requires { page.old.at ≤ length page.old.text.now }
    ensures { page.new ≡ wrote page.old (text_of file.now) }
{
    if !files::good(file) {
        page.put(b"bad file\n");
        return;
    }
    let mut bench = Bench::of(file);
    calls::put_lines(page, file, &mut bench);
}

// Puts a part of a file's text, from a byte of it on, at the start of text, and answers how long it is. The last part is the first that does not fill text.
pub fn part(file: &[u8], skip: usize, text: &mut [u8; 65536]) -> usize
    ensures value { result ≡ length (part_from skip (text_of file.now)) }
    ensures text_after { text.new ≡ laid_over (part_from skip (text_of file.now)) text.old }
{
    rehearse(file, skip, text)
}
