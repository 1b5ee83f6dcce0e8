// The board by records: a call of the node on a list of slot records, and its initialisation on its own record.
#![tactic(auto)]

mod columns;

ghost use Rattle.std.specs.Prelude.{◌≡◌};
ghost use Rattle.node.specs.Lent.{slots_of};
ghost use Rattle.node.specs.Answers.{leaves, performed};
ghost use Rattle.slot_records.specs.Apart.{apart};
ghost use Rattle.slot_records.specs.Records.{leaves_record, initialises_record};

use crate::columns::Columns;
use node::Answer;
use node_rules::{Call, Node};
use range::Block;

// A slot as C lends it, `hrislanoth_slot`: its numbers are tested by the node, which refuses others.
#[repr(C)]
#[derive(Clone, Copy)]
pub struct Slot {
    pub role: u8,
    pub event: u64,
    pub status: u8,
    pub mark: u8,
}

// A node's own record, and the bytes that its last initialisation wrote.
#[derive(Clone, Copy)]
pub struct Record {
    pub id: u64,
    pub state: u8,
    pub automatic: Block,
    pub written: usize,
}

// node::perform on slot records.
pub fn perform(node: Node, call: Call, bytes: &[u8], slots: &mut [Slot], out: &mut [u8]) -> Answer
    ensures { leaves result (apart slots.new) out.new ≡ performed node call bytes.now (apart slots.old) out.old }
{
    let mut columns = Columns::of(slots);
    let answer = columns.perform(node, call, bytes, out);
    columns.put_back(slots);
    answer
}

// node::initialise on the node's own record: its state and the bytes written are set there, and the answer is the refusal or 0, the number in node::Answer.
pub fn initialise_record(
    own: &mut Record,
    roles: &[u8],
    events: &[u64],
    statuses: &mut [u8],
    marks: &mut [u8],
    out: &mut [u8],
) -> u8
    ensures { leaves_record result own.new (slots_of roles.now events.now statuses.new marks.new) out.new ≡ initialises_record own.old (slots_of roles.now events.now statuses.old marks.old) out.old }
{
    let node = Node {
        id: own.id,
        state: own.state,
        automatic: own.automatic,
    };
    let answer = node::initialise(node, roles, events, statuses, marks, out);
    if answer.refusal == 0 {
        own.state = answer.node.state;
        own.written = answer.bytes;
    }
    answer.refusal
}
