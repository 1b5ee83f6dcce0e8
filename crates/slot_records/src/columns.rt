// A list of slot records, taken apart into four lists of numbers and put together again, and a call of the node on them.
ghost use Rattle.std.specs.Prelude.{◌≡◌, length};
ghost use Rattle.node.specs.Answers.{leaves, performed};
ghost use Rattle.slot_records.specs.Columns.{placed, back, used, gathered, scattered, Fits};

use crate::Slot;
use node::Answer;
use node_rules::{Call, Node};

// One more than a board may have, so that a longer list is seen. Arrays of so many, since what C calls has no heap.
const PLACES: usize = 65;

// How many slots there are, and the numbers of the first of them.
#[derive(Clone, Copy)]
pub(crate) struct Columns {
    pub count: usize,
    pub roles: [u8; PLACES],
    pub events: [u64; PLACES],
    pub statuses: [u8; PLACES],
    pub marks: [u8; PLACES],
}

impl Columns {
    pub(crate) fn of(slots: &[Slot]) -> Columns
        ensures { result ≡ gathered slots.now (length slots.now) }
    {
        let mut columns = Columns {
            count: slots.len(),
            roles: [0; PLACES],
            events: [0; PLACES],
            statuses: [0; PLACES],
            marks: [0; PLACES],
        };
        for (i, slot) in slots.iter().enumerate() {
            columns.place(i, *slot);
        }
        columns
    }

    // Puts slot i in its place; beyond the places nothing changes.
    fn place(&mut self, i: usize, slot: Slot)
        ensures { self.new ≡ placed self.old i slot }
    {
        if i < PLACES {
            self.roles[i] = slot.role;
            self.events[i] = slot.event;
            self.statuses[i] = slot.status;
            self.marks[i] = slot.mark;
        }
    }

    // Any call of the node on the places that are used.
    pub(crate) fn perform(&mut self, node: Node, call: Call, bytes: &[u8], out: &mut [u8]) -> Answer
        ensures out_value { leaves result (used self.new) out.new ≡ performed node call bytes.now (used self.old) out.old }
        ensures fits { Fits self.old.count self.new }
    {
        let n = self.count.min(PLACES);
        // Lent as copies: what a part of an array behind a reference becomes is not proved.
        let mut statuses = self.statuses;
        let mut marks = self.marks;
        let answer = node::perform(
            node,
            call,
            bytes,
            &self.roles[..n],
            &self.events[..n],
            &mut statuses[..n],
            &mut marks[..n],
            out,
        );
        self.statuses = statuses;
        self.marks = marks;
        answer
    }

    pub(crate) fn put_back(&self, slots: &mut [Slot])
        ensures { slots.new ≡ scattered slots.old self.now (length slots.old) }
    {
        for (i, slot) in slots.iter_mut().enumerate() {
            *slot = self.back(i, *slot);
        }
    }

    // Slot i of the columns; beyond them it is as it was.
    fn back(&self, i: usize, slot: Slot) -> Slot
        ensures { result ≡ back self.now i slot }
    {
        if PLACES <= i {
            return slot;
        }
        Slot {
            role: self.roles[i],
            event: self.events[i],
            status: self.statuses[i],
            mark: self.marks[i],
        }
    }
}
