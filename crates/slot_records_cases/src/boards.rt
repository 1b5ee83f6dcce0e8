// A board of slot records.
use crate::own;
use crate::steps::{Step, byte};
use node::Answer;
use node_rules::{Call, Node};
use slot_records::Slot;
use std::io;
use text::Page;

// The first `count` of the slots are the board's.
#[derive(Clone, Copy)]
pub(crate) struct Board {
    pub(crate) node: Node,
    pub(crate) slots: [Slot; 100],
    pub(crate) count: usize,
}

impl Board {
    // The board of a file, not Initialized.
    pub(crate) fn laid_out(file: &[u8]) -> Board {
        let mut slots = [Slot {
            role: 0,
            event: 0,
            status: 0,
            mark: 0,
        }; 100];
        for (i, slot) in slots.iter_mut().enumerate() {
            let at = 17 + i * 10;
            *slot = Slot {
                role: byte(file, at),
                event: numbers::read_at(file, at + 1, 8),
                status: byte(file, at + 9),
                mark: 0,
            };
        }
        Board {
            node: Node {
                id: numbers::read_at(file, 0, 8),
                state: 0,
                automatic: range::block_of(numbers::read_at(file, 8, 8)),
            },
            slots,
            count: usize::from(byte(file, 16)).min(100),
        }
    }

    // Makes a call, and prints its line. A restart is made by the node's own record too, and must come to the same.
    pub(crate) fn make(&mut self, rt: &impl Print, k: usize, step: Step) -> io::Result<()> {
        let before = *self;
        let count = self.count.min(100);
        let mut out = [0; 2048];
        let room = step.room.min(2048);
        let slots = &mut self.slots[..];
        let answer = slot_records::perform(
            self.node,
            step.call,
            step.message,
            &mut slots[..count],
            &mut out[..room],
        );
        self.node = answer.node;
        if let Call::Initialise = step.call {
            own::compare(rt, &before, &answer, self, &out[..room])?;
        }
        self.say(rt, k, &answer, &out)
    }

    fn say(&self, rt: &impl Print, k: usize, answer: &Answer, out: &[u8]) -> io::Result<()> {
        let Some(written) = out.get(..answer.bytes) else {
            return Ok(());
        };
        let lists = own::lists_of(&self.slots);
        let mut line = [0; 8192];
        let mut page = Page {
            skip: 0,
            at: 0,
            text: &mut line,
        };
        rehearsal::put_line(
            &mut page,
            k,
            answer.refusal,
            written,
            answer.matches,
            self.node.state,
            &lists.marks[..self.count.min(100)],
        );
        let end = page.at;
        match line.get(..end) {
            Some(line) => rt.write_all(line),
            None => Ok(()),
        }
    }
}
