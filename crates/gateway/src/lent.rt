// The box on lent lists: the lines and their index stand in the caller's lists, and change there.
ghost use Rattle.std.specs.Prelude.{◌≡◌};
ghost use Rattle.basics.specs.Refusals.{refusal_number};
ghost use Rattle.gateway.specs.State.{index_in, lists, index_lists};
ghost use Rattle.gateway.specs.Answers.{seen_lent, seen_of, lent_step, LentRefusalKeeps};

use crate::table::Table;
use crate::{Head, LentAnswer, bounds, port_sets};
use basics::Refusal;

// A message at a port. A list that is not of 256 places, and sets that are not nine, are refusal 7.
pub fn receive_lent(
    head: Head,
    nodes: &mut [u64],
    starts: &mut [u64],
    ports: &mut [u8],
    sizes: &mut [u8],
    order: &mut [u8],
    sets: &mut [u64],
    port: u8,
    bytes: &[u8],
) -> LentAnswer
    ensures sets_value { seen_lent head result (lists nodes.new starts.new ports.new sizes.new) (index_lists order.new sets.new) ≡ seen_of (index_in head.count (index_lists order.old sets.old)) (lent_step head (lists nodes.old starts.old ports.old sizes.old) (index_lists order.old sets.old) port bytes.now) }
    ensures lent_refusal_keeps { LentRefusalKeeps head (lists nodes.old starts.old ports.old sizes.old) (index_lists order.old sets.old) result (lists nodes.new starts.new ports.new sizes.new) (index_lists order.new sets.new) }
{
    if bounds::bad_state(head, nodes, starts, ports, sizes, order, sets) {
        return refused(head, Refusal::OutOfBounds);
    }
    if head.ports <= port {
        return refused(head, Refusal::NoSuchPort);
    }
    // Document 01 names this form for the read answer.
    let reading = message::read(bytes);
    let Ok(m) = reading else {
        return refused(head, reading.unwrap_err());
    };
    let saying = message::said_by(m);
    let mut table = Table {
        head,
        nodes,
        starts,
        ports,
        sizes,
        order,
        sets,
    };
    let wanted = table.view().wanted(saying);
    let sent = port_sets::others(wanted, head.ports, port);
    table.hear(port, m.source, saying);
    LentAnswer {
        refusal: 0,
        sent,
        marks: table.head.marks,
        count: table.head.count,
    }
}

// Sent nowhere, with the state as it was.
fn refused(head: Head, refusal: Refusal) -> LentAnswer
    ensures { (result.refusal ≡ refusal_number refusal) × (result.sent ≡ 0) × (result.marks ≡ head.marks) × (result.count ≡ head.count) }
{
    LentAnswer {
        refusal: u8::from(refusal),
        sent: 0,
        marks: head.marks,
        count: head.count,
    }
}
