// The line of an entry.
ghost use Rattle.std.specs.Prelude.{◌≡◌};
ghost use Rattle.text.specs.Text.{wrote};
ghost use Rattle.replay.specs.Lines.{port_digits, answer_text, line_of};

use text::Page;

// Puts the line of entry i on a page: the refusal or a digit a port, and the lines in the table.
#[tactic(auto, using(text::proofs::Laws::wrote_next), unfolding(crate::specs::Lines::line_of))]
pub(crate) fn put(page: &mut Page, i: usize, refusal: u8, sent: u8, lines: usize)
    ensures { page.new ≡ wrote page.old (line_of i refusal sent lines) }
{
    page.put_decimal(i as u64);
    page.put(b" ");
    put_answer(page, refusal, sent);
    page.put(b" ");
    page.put_decimal(lines as u64);
    page.put(b"\n");
}

#[tactic(auto, using(text::proofs::Laws::wrote_next))]
fn put_answer(page: &mut Page, refusal: u8, sent: u8)
    ensures { page.new ≡ wrote page.old (answer_text refusal sent) }
{
    if refusal == 0 {
        return put_ports(page, sent);
    }
    page.put(b"refused ");
    page.put_decimal(refusal as u64);
}

// One digit per port from 0.
#[tactic(auto, using(text::proofs::Laws::wrote_next))]
fn put_ports(page: &mut Page, sent: u8)
    ensures { page.new ≡ wrote page.old (port_digits sent) }
{
    page.put_decimal((sent % 2) as u64);
    page.put_decimal((sent / 2 % 2) as u64);
    page.put_decimal((sent / 4 % 2) as u64);
    page.put_decimal((sent / 8 % 2) as u64);
}
