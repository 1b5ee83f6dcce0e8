// The lines of an entry that is asked.
ghost use Rattle.std.specs.Prelude.{◌≡◌, [], ◌++◌};
ghost use Rattle.basics.specs.Refusals.{refusal_number};
ghost use Rattle.text.specs.Text.{wrote, decimal, new_line};
ghost use Rattle.gateway_rules.specs.Reasons.{reason_told};
ghost use Rattle.index_rules.specs.Boxes.{Right};
ghost use Rattle.gateway.specs.State.{gate_of, box_of};
ghost use Rattle.replay.specs.Lines.{ports as port_count};
ghost use Rattle.reasons.specs.Lines.{line_of, answer_of};

use basics::Refusal;
use gateway::Gateway;
use gateway_rules::Reason;
use replay::{Entry, PORTS};
use text::Page;

// Puts a line for each port on a page, or the refusal: the box is asked of each port, and refuses all or none.
pub(crate) fn put(page: &mut Page, gateway: &Gateway, entry: Entry)
    requires right { Right (box_of gateway.now) × (gateway.now.head.ports ≡ port_count) }
    requires within { page.old ≡ wrote page.old [] }
    ensures { page.new ≡ wrote page.old (answer_of (gate_of gateway.now) entry.entry.port entry.entry.body.now) }
{
    for asked in 0..PORTS {
        match gateway.why(entry.port, asked, entry.body) {
            Ok(reason) => put_line(page, asked, reason),
            Err(refusal) => return put_refusal(page, refusal),
        }
    }
}

#[tactic(auto, using(text::proofs::Laws::wrote_next), unfolding(crate::specs::Lines::line_of))]
fn put_line(page: &mut Page, asked: u8, reason: Reason)
    ensures { page.new ≡ wrote page.old (line_of asked (reason_told reason).number) }
{
    page.put_decimal(asked as u64);
    page.put(b" ");
    page.put_decimal(u8::from(reason) as u64);
    page.put(b"\n");
}

#[tactic(auto, using(text::proofs::Laws::wrote_next))]
fn put_refusal(page: &mut Page, refusal: Refusal)
    ensures { page.new ≡ wrote page.old (decimal (refusal_number refusal) ++ new_line) }
{
    page.put_decimal(u8::from(refusal) as u64);
    page.put(b"\n");
}
