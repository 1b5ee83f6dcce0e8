// The line of a step.
ghost use Rattle.std.specs.Prelude.{◌≡◌};
ghost use Rattle.text.specs.Text.{wrote, hex_of, or_dash};
ghost use Rattle.framing.specs.Lines.{line_of};

use text::Page;

// Puts the line of step k: its refusal or 0, its bytes, and how many senders are unfinished after it.
pub(crate) fn put_line(page: &mut Page, k: usize, refusal: u8, bytes: &[u8], unfinished: usize)
    ensures { page.new ≡ wrote page.old (line_of k refusal bytes.now unfinished) }
{
    page.put_decimal(k as u64);
    page.put(b" ");
    page.put_decimal(refusal as u64);
    page.put(b" ");
    page.put_hex_or_dash(bytes);
    page.put(b" ");
    page.put_decimal(unfinished as u64);
    page.put(b"\n");
}
