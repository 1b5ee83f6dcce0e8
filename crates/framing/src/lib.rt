// A frame file in, a line a step out: what a bench hand sees when frames are joined and event reports split.
#![tactic(auto)]

mod calls;
mod fields;
mod files;
mod lines;
mod pairs;
mod steps;

ghost use Rattle.std.specs.Prelude.{◌≡◌, ◌≤◌, length, drop};
ghost use Rattle.text.specs.Text.{filled_at, end_at, laid_over, wrote};
ghost use Rattle.text.specs.Parts.{part_from};
ghost use Rattle.framing.specs.Lines.{text_of};

use text::Page;

// Puts the text of a file into text, from a byte of it on, as much as fits, and answers how many bytes that took.
#[tactic(auto, using(text::proofs::Parts::page_ends))]
pub fn frame_text(file: &[u8], skip: usize, text: &mut [u8]) -> usize
    ensures value { result ≡ end_at 0 (drop skip (text_of file.now)) text.old }
    ensures text_after { text.new ≡ filled_at 0 (drop skip (text_of file.now)) text.old }
{
    let mut page = Page { skip, at: 0, text };
    put_text(&mut page, file);
    page.at
}

fn put_text(page: &mut Page, file: &[u8])
    requires { page.old.at ≤ length page.old.text.now }
    ensures { page.new ≡ wrote page.old (text_of file.now) }
{
    if !files::good(file) {
        page.put(b"bad file\n");
        return;
    }
    // What C calls has no heap: the lists have the most places that a file can fill.
    let mut aliases = [0u64; 255];
    let mut nodes = [0u64; 255];
    let count = file[0] as usize;
    pairs::load(file, count, &mut aliases, &mut nodes);
    steps::put_lines(page, file, &aliases[..count], &nodes[..count]);
}

// Puts a part of a file's text, from a byte of it on, at the start of text, and answers how long it is. The last part is the first that does not fill text.
pub fn part(file: &[u8], skip: usize, text: &mut [u8; 65536]) -> usize
    ensures value { result ≡ length (part_from skip (text_of file.now)) }
    ensures text_after { text.new ≡ laid_over (part_from skip (text_of file.now)) text.old }
{
    frame_text(file, skip, text)
}
