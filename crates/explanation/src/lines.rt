// The lines of an entry.
ghost use Rattle.std.specs.Prelude.{◌≡◌, ◌%◌, ◌^◌};
ghost use Rattle.basics.specs.Refusals.{refusal_number};
ghost use Rattle.range.specs.Range.{last};
ghost use Rattle.text.specs.Text.{wrote};
ghost use Rattle.explanation.specs.Words.{event_text, block_text, holder_text, reason_text, leg_line, refused_line};

use basics::Refusal;
use gateway_rules::{Holder, Reason};
use range::Block;
use text::Page;

// Puts the line of a refused entry on a page.
#[tactic(auto, using(text::proofs::Laws::wrote_next), unfolding(crate::specs::Words::refused_line))]
pub(crate) fn put_refusal(page: &mut Page, i: usize, refusal: Refusal)
    ensures { page.new ≡ wrote page.old (refused_line i (refusal_number refusal)) }
{
    page.put_decimal(i as u64);
    page.put(b": refused ");
    page.put_decimal(u8::from(refusal) as u64);
    page.put(b": sent to no leg\n");
}

// Puts the line of a leg on a page: of entry i's report of an event.
#[tactic(auto, using(text::proofs::Laws::wrote_next), unfolding(crate::specs::Words::leg_line))]
pub(crate) fn put_leg(page: &mut Page, i: usize, event: u64, leg: u8, reason: Reason)
    ensures { page.new ≡ wrote page.old (leg_line i event leg reason) }
{
    page.put_decimal(i as u64);
    page.put(b": leg ");
    page.put_decimal(leg as u64);
    put_reason(page, event, reason);
    page.put(b"\n");
}

#[tactic(auto, using(text::proofs::Laws::wrote_next))]
fn put_reason(page: &mut Page, event: u64, reason: Reason)
    ensures { page.new ≡ wrote page.old (reason_text event reason) }
{
    match reason {
        Reason::ArrivalPort => page.put(b" not sent: the report came in there"),
        Reason::AutomaticEvent => {
            page.put(b" sent: ");
            put_event(page, event);
            page.put(b" is automatic");
        }
        Reason::OpenPort => page.put(b" sent: a full table opened the leg"),
        Reason::HeldBy(holder) => put_holder(page, holder),
        Reason::NothingHolds => {
            page.put(b" held back: nothing on that leg asks for ");
            put_event(page, event);
        }
    }
}

#[tactic(auto, using(text::proofs::Laws::wrote_next), unfolding(crate::specs::Words::holder_text))]
fn put_holder(page: &mut Page, holder: Holder)
    ensures { page.new ≡ wrote page.old (holder_text holder) }
{
    let mut node = [0u8; 6];
    numbers::write(holder.node, &mut node);
    page.put(b" sent: line ");
    page.put_decimal(holder.place as u64);
    page.put(b", board ");
    page.put_hex(&node);
    page.put(b" asked for ");
    put_block(page, holder.block);
}

#[tactic(auto, using(text::proofs::Laws::wrote_next), unfolding(crate::specs::Words::block_text))]
fn put_block(page: &mut Page, block: Block)
    ensures { page.new ≡ wrote page.old (block_text block) }
{
    put_event(page, block.start);
    if block.k != 0 {
        page.put(b" to ");
        put_event(page, last_of(block));
    }
}

fn put_event(page: &mut Page, event: u64)
    ensures { page.new ≡ wrote page.old (event_text event) }
{
    let mut bytes = [0u8; 8];
    numbers::write(event, &mut bytes);
    page.put_hex(&bytes);
}

// The last event. Of a block it is below 2^64; eight bytes show no more of any other.
fn last_of(block: Block) -> u64
    ensures { result ≡ last block % 2 ^ 64 }
{
    let k = block.k;
    if k < 64 {
        block.start.wrapping_add((1 << k) - 1)
    } else {
        block.start.wrapping_add(u64::MAX)
    }
}
