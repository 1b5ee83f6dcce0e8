// The line of a call.
ghost use Rattle.std.specs.Prelude.{◌≡◌};
ghost use Rattle.text.specs.Text.{wrote, hex_of, or_dash};
ghost use Rattle.rehearsal.specs.Lines.{digits_of, line_of};

use text::Page;

// Puts the line of call k: its refusal or 0, the bytes written, the matches, and the state and the marks after it.
pub fn put_line(
    page: &mut Page,
    k: usize,
    refusal: u8,
    bytes: &[u8],
    matches: u64,
    state: u8,
    marks: &[u8],
)
    ensures { page.new ≡ wrote page.old (line_of k refusal bytes.now matches state marks.now) }
{
    let mut set = [0u8; 8];
    numbers::write(matches, &mut set);
    page.put_decimal(k as u64);
    page.put(b" ");
    page.put_decimal(refusal as u64);
    page.put(b" ");
    page.put_hex_or_dash(bytes);
    page.put(b" ");
    page.put_hex(&set);
    page.put(b" ");
    page.put_decimal(state as u64);
    page.put(b" ");
    put_marks(page, marks);
    page.put(b"\n");
}

// A digit for each mark.
fn put_marks(page: &mut Page, marks: &[u8])
    ensures { page.new ≡ wrote page.old (or_dash (digits_of marks.now)) }
{
    if marks.is_empty() {
        page.put(b"-");
        return;
    }
    for mark in marks {
        page.put_decimal(*mark as u64);
    }
}
