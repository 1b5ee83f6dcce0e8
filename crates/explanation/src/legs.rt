// The lines of an entry, leg by leg.
ghost use Rattle.std.specs.Prelude.{◌≡◌, true, [], if◌then◌else◌, MatchResult};
ghost use Rattle.basics.specs.Refusals.{refused, refusal_number};
ghost use Rattle.gateway_rules.specs.Reasons.{why_told};
ghost use Rattle.text.specs.Text.{wrote};
ghost use Rattle.index_rules.specs.Boxes.{Right};
ghost use Rattle.gateway.specs.State.{gate_of, box_of};
ghost use Rattle.replay.specs.Lines.{ports as leg_count};
ghost use Rattle.explanation.specs.Words.{event_in, leg_lines, entry_lines, accepted_report, no_report};

use crate::lines;
use basics::Refusal;
use gateway::Gateway;
use replay::{Entry, PORTS};
use text::Page;

// Puts the lines of an entry on a page, in the state that the entries before it have left, and answers whether it is an accepted report.
pub(crate) fn put(page: &mut Page, gateway: &Gateway, entry: Entry) -> bool
    requires right { Right (box_of gateway.now) × (gateway.now.head.ports ≡ leg_count) }
    requires within { page.old ≡ wrote page.old [] }
    ensures lines { page.new ≡ wrote page.old (entry_lines entry.entry.index (gate_of gateway.now) entry.entry.port entry.entry.body.now) }
    ensures accepted { result ≡ accepted_report (gate_of gateway.now) entry.entry.port entry.entry.body.now }
{
    let Err(refusal) = put_legs(page, gateway, entry) else {
        return true;
    };
    if refusal == Refusal::NoReport {
        return false;
    }
    lines::put_refusal(page, entry.index, refusal);
    false
}

// Puts a line for each leg, or none where the box refuses: it is asked of each leg, and refuses all or none. A report has no destination, so its event stands at byte 8.
fn put_legs(page: &mut Page, gateway: &Gateway, entry: Entry) -> Result<(), Refusal>
    requires right { Right (box_of gateway.now) × (gateway.now.head.ports ≡ leg_count) }
    requires within { page.old ≡ wrote page.old [] }
    ensures { let e = entry.entry in let g = gate_of gateway.now in MatchResult result (λ _. (accepted_report g e.port e.body.now ≡ true) × (page.new ≡ wrote page.old (leg_lines leg_count 0 e.index g e.port (event_in e.body.now)))) (λ r. (refused (refusal_number r) [] ≡ why_told g e.port 0 e.body.now) × (page.new ≡ wrote page.old [])) }
{
    let event = numbers::read_at(entry.body, 8, 8);
    for leg in 0..PORTS {
        let reason = gateway.why(entry.port, leg, entry.body)?;
        lines::put_leg(page, entry.index, event, leg, reason);
    }
    Ok(())
}

// Puts the line of a file without a report.
pub(crate) fn put_end(page: &mut Page, reported: bool)
    requires { page.old ≡ wrote page.old [] }
    ensures { page.new ≡ wrote page.old (if reported then [] else no_report) }
{
    if !reported {
        page.put(b"no event report was accepted\n");
    }
}
