// The board: its record by value and its slots as lent lists, one call for each thing that it does.
#![tactic(auto)]

mod board;
mod bounds;
mod calls;
mod hearing;
mod replies;
mod slots;
mod writing;

ghost use Rattle.std.specs.Prelude.{◌≡◌, []};
ghost use Rattle.node_rules.specs.declared.Call.TheVariants.{Initialise, Announce, Produce, SetStatus, Receive};
ghost use Rattle.node.specs.Lent.{slots_of};
ghost use Rattle.node.specs.Boards.{answer_in};
ghost use Rattle.node.specs.Answers.{leaves, performed};

use crate::board::Board;
use crate::calls::Done;
use basics::Refusal;
use node_rules::{Call, Node};

// The refusal or 0, the messages written and their bytes, the slots that a report matches, bit i for slot i, and the record: the struct that C gets.
#[repr(C)]
#[derive(Clone, Copy)]
pub struct Answer {
    pub refusal: u8,
    pub messages: usize,
    pub bytes: usize,
    pub matches: u64,
    pub node: Node,
}

// Any call; only Receive reads the bytes.
pub fn perform(
    node: Node,
    call: Call,
    bytes: &[u8],
    roles: &[u8],
    events: &[u64],
    statuses: &mut [u8],
    marks: &mut [u8],
    out: &mut [u8],
) -> Answer
    ensures { leaves result (slots_of roles.now events.now statuses.new marks.new) out.new ≡ performed node call bytes.now (slots_of roles.now events.now statuses.old marks.old) out.old }
{
    if let Err(refusal) = bounds::check(node, roles, events, statuses, marks) {
        return in_numbers(node, Err(refusal));
    }
    let mut board = Board {
        node,
        roles,
        events,
        statuses,
        marks,
    };
    let done = board.perform(call, bytes, out);
    in_numbers(node, done)
}

// C's answer: a refusal writes nothing, matches nothing and keeps the record.
fn in_numbers(node: Node, done: Result<Done, Refusal>) -> Answer
    ensures { result ≡ answer_in node done }
{
    match done {
        Ok(done) => Answer {
            refusal: 0,
            messages: done.messages,
            bytes: done.bytes,
            matches: done.matches,
            node: done.node,
        },
        Err(refusal) => Answer {
            refusal: refusal.into(),
            messages: 0,
            bytes: 0,
            matches: 0,
            node,
        },
    }
}

// Writes Initialization Complete; slots in the automatic block become Advertised, all others Unadvertised.
pub fn initialise(
    node: Node,
    roles: &[u8],
    events: &[u64],
    statuses: &mut [u8],
    marks: &mut [u8],
    out: &mut [u8],
) -> Answer
    ensures { leaves result (slots_of roles.now events.now statuses.new marks.new) out.new ≡ performed node Initialise [] (slots_of roles.now events.now statuses.old marks.old) out.old }
{
    perform(
        node,
        Call::Initialise,
        b"",
        roles,
        events,
        statuses,
        marks,
        out,
    )
}

// Writes a slot's Identified message; every slot of that role and Event ID becomes Advertised.
pub fn announce(
    node: Node,
    slot: usize,
    roles: &[u8],
    events: &[u64],
    statuses: &mut [u8],
    marks: &mut [u8],
    out: &mut [u8],
) -> Answer
    ensures { leaves result (slots_of roles.now events.now statuses.new marks.new) out.new ≡ performed node (Announce slot) [] (slots_of roles.now events.now statuses.old marks.old) out.old }
{
    perform(
        node,
        Call::Announce(slot),
        b"",
        roles,
        events,
        statuses,
        marks,
        out,
    )
}

// Writes the report of an Advertised producer slot.
pub fn produce(
    node: Node,
    slot: usize,
    roles: &[u8],
    events: &[u64],
    statuses: &mut [u8],
    marks: &mut [u8],
    out: &mut [u8],
) -> Answer
    ensures { leaves result (slots_of roles.now events.now statuses.new marks.new) out.new ≡ performed node (Produce slot) [] (slots_of roles.now events.now statuses.old marks.old) out.old }
{
    perform(
        node,
        Call::Produce(slot),
        b"",
        roles,
        events,
        statuses,
        marks,
        out,
    )
}

// Sets a slot's status, in any state of the node.
pub fn set_status(
    node: Node,
    slot: usize,
    status: u8,
    roles: &[u8],
    events: &[u64],
    statuses: &mut [u8],
    marks: &mut [u8],
) -> Answer
    ensures { leaves result (slots_of roles.now events.now statuses.new marks.new) [] ≡ performed node (SetStatus slot status) [] (slots_of roles.now events.now statuses.old marks.old) [] }
{
    let mut none = [0u8; 0];
    perform(
        node,
        Call::SetStatus(slot, status),
        b"",
        roles,
        events,
        statuses,
        marks,
        &mut none,
    )
}

// Takes a message in: the replies to an inquiry, or the matches of a report.
pub fn receive(
    node: Node,
    bytes: &[u8],
    roles: &[u8],
    events: &[u64],
    statuses: &mut [u8],
    marks: &mut [u8],
    out: &mut [u8],
) -> Answer
    ensures { leaves result (slots_of roles.now events.now statuses.new marks.new) out.new ≡ performed node Receive bytes.now (slots_of roles.now events.now statuses.old marks.old) out.old }
{
    perform(
        node,
        Call::Receive,
        bytes,
        roles,
        events,
        statuses,
        marks,
        out,
    )
}
