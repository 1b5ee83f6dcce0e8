// The board on four lists of numbers, one entry of each for a slot.
ghost use Rattle.std.specs.Prelude.{◌≡◌, []};
ghost use Rattle.node_rules.specs.declared.Call.TheVariants.{Initialise, Announce, Produce, SetStatus, Receive};
ghost use Rattle.node.specs.Lent.{slots_of};
ghost use Rattle.node.specs.Answers.{leaves, performed};

use node::Answer;
use node_rules::Node;

#[unsafe(no_mangle)]
pub extern "C" fn hrislanoth_initialise_lists(
    node: Node,
    roles: &[u8],
    events: &[u64],
    statuses: &mut [u8],
    marks: &mut [u8],
    out: &mut [u8],
) -> Answer
    ensures { leaves result (slots_of roles.now events.now statuses.new marks.new) out.new ≡ performed node Initialise [] (slots_of roles.now events.now statuses.old marks.old) out.old }
{
    node::initialise(node, roles, events, statuses, marks, out)
}

#[unsafe(no_mangle)]
pub extern "C" fn hrislanoth_announce_lists(
    node: Node,
    slot: usize,
    roles: &[u8],
    events: &[u64],
    statuses: &mut [u8],
    marks: &mut [u8],
    out: &mut [u8],
) -> Answer
    ensures { leaves result (slots_of roles.now events.now statuses.new marks.new) out.new ≡ performed node (Announce slot) [] (slots_of roles.now events.now statuses.old marks.old) out.old }
{
    node::announce(node, slot, roles, events, statuses, marks, out)
}

#[unsafe(no_mangle)]
pub extern "C" fn hrislanoth_produce_lists(
    node: Node,
    slot: usize,
    roles: &[u8],
    events: &[u64],
    statuses: &mut [u8],
    marks: &mut [u8],
    out: &mut [u8],
) -> Answer
    ensures { leaves result (slots_of roles.now events.now statuses.new marks.new) out.new ≡ performed node (Produce slot) [] (slots_of roles.now events.now statuses.old marks.old) out.old }
{
    node::produce(node, slot, roles, events, statuses, marks, out)
}

#[unsafe(no_mangle)]
pub extern "C" fn hrislanoth_set_status_lists(
    node: Node,
    slot: usize,
    status: u8,
    roles: &[u8],
    events: &[u64],
    statuses: &mut [u8],
    marks: &mut [u8],
) -> Answer
    ensures { leaves result (slots_of roles.now events.now statuses.new marks.new) [] ≡ performed node (SetStatus slot status) [] (slots_of roles.now events.now statuses.old marks.old) [] }
{
    node::set_status(node, slot, status, roles, events, statuses, marks)
}

#[unsafe(no_mangle)]
pub extern "C" fn hrislanoth_hear_lists(
    node: Node,
    bytes: &[u8],
    roles: &[u8],
    events: &[u64],
    statuses: &mut [u8],
    marks: &mut [u8],
    out: &mut [u8],
) -> Answer
    ensures { leaves result (slots_of roles.now events.now statuses.new marks.new) out.new ≡ performed node Receive bytes.now (slots_of roles.now events.now statuses.old marks.old) out.old }
{
    node::receive(node, bytes, roles, events, statuses, marks, out)
}
