// The board on slot records: slot_records::perform for each call.
ghost use Rattle.std.specs.Prelude.{◌≡◌, []};
ghost use Rattle.node_rules.specs.declared.Call.TheVariants.{Initialise, Announce, Produce, SetStatus, Receive};
ghost use Rattle.node.specs.Answers.{leaves, performed};
ghost use Rattle.slot_records.specs.Apart.{apart};

use node::Answer;
use node_rules::{Call, Node};
use slot_records::Slot;

#[unsafe(no_mangle)]
pub extern "C" fn hrislanoth_initialise(node: Node, slots: &mut [Slot], out: &mut [u8]) -> Answer
    ensures { leaves result (apart slots.new) out.new ≡ performed node Initialise [] (apart slots.old) out.old }
{
    slot_records::perform(node, Call::Initialise, b"", slots, out)
}

#[unsafe(no_mangle)]
pub extern "C" fn hrislanoth_announce(
    node: Node,
    slot: usize,
    slots: &mut [Slot],
    out: &mut [u8],
) -> Answer
    ensures { leaves result (apart slots.new) out.new ≡ performed node (Announce slot) [] (apart slots.old) out.old }
{
    slot_records::perform(node, Call::Announce(slot), b"", slots, out)
}

#[unsafe(no_mangle)]
pub extern "C" fn hrislanoth_produce(
    node: Node,
    slot: usize,
    slots: &mut [Slot],
    out: &mut [u8],
) -> Answer
    ensures { leaves result (apart slots.new) out.new ≡ performed node (Produce slot) [] (apart slots.old) out.old }
{
    slot_records::perform(node, Call::Produce(slot), b"", slots, out)
}

#[unsafe(no_mangle)]
pub extern "C" fn hrislanoth_set_status(
    node: Node,
    slot: usize,
    status: u8,
    slots: &mut [Slot],
) -> Answer
    ensures { leaves result (apart slots.new) [] ≡ performed node (SetStatus slot status) [] (apart slots.old) [] }
{
    slot_records::perform(node, Call::SetStatus(slot, status), b"", slots, &mut [])
}

#[unsafe(no_mangle)]
pub extern "C" fn hrislanoth_hear(
    node: Node,
    bytes: &[u8],
    slots: &mut [Slot],
    out: &mut [u8],
) -> Answer
    ensures { leaves result (apart slots.new) out.new ≡ performed node Receive bytes.now (apart slots.old) out.old }
{
    slot_records::perform(node, Call::Receive, bytes, slots, out)
}
