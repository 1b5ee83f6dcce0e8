// A restart by the node's own record beside the same restart by slot records.
use crate::boards::Board;
use node::Answer;
use slot_records::{Record, Slot};
use std::io;

#[derive(Clone, Copy)]
pub(crate) struct Lists {
    pub(crate) roles: [u8; 100],
    pub(crate) events: [u64; 100],
    pub(crate) statuses: [u8; 100],
    pub(crate) marks: [u8; 100],
}

// The slots as number lists.
pub(crate) fn lists_of(slots: &[Slot; 100]) -> Lists {
    let mut lists = Lists {
        roles: [0; 100],
        events: [0; 100],
        statuses: [0; 100],
        marks: [0; 100],
    };
    for (i, slot) in slots.iter().enumerate() {
        lists.roles[i] = slot.role;
        lists.events[i] = slot.event;
        lists.statuses[i] = slot.status;
        lists.marks[i] = slot.mark;
    }
    lists
}

// Says so for each in which the two do not come to the same.
pub(crate) fn compare(
    rt: &impl Print,
    before: &Board,
    answer: &Answer,
    after: &Board,
    out: &[u8],
) -> io::Result<()> {
    let lists = lists_of(&before.slots);
    let mut statuses = lists.statuses;
    let mut marks = lists.marks;
    let after_lists = lists_of(&after.slots);
    let count = before.count.min(100);
    let room = out.len().min(2048);
    let mut written = [0; 2048];
    let mut own = Record {
        id: before.node.id,
        state: before.node.state,
        automatic: before.node.automatic,
        written: 0,
    };
    let refusal = slot_records::initialise_record(
        &mut own,
        &lists.roles[..count],
        &lists.events[..count],
        &mut statuses[..count],
        &mut marks[..count],
        &mut written[..room],
    );
    for same in [
        refusal == answer.refusal,
        own.state == answer.node.state,
        own.written == answer.bytes,
        statuses == after_lists.statuses,
        marks == after_lists.marks,
        &written[..room] == out,
    ] {
        if !same {
            println!(rt; "the node's own record differs")?;
        }
    }
    Ok(())
}
