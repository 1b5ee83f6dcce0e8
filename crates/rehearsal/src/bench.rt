// The board of a board file, and a call on it.
ghost use Rattle.std.specs.Prelude.{◌≡◌, true, ◌≤◌, ◌<◌, length, take};
ghost use Rattle.node_rules.specs.Boards.{Board};
ghost use Rattle.node.specs.Lent.{board_of, slots_of};
ghost use Rattle.rehearsal.specs.Files.{call_in, good_call, outcome_at, slot_count, calls_at, board_in};
ghost use Rattle.rehearsal.specs.Kinds.{number_of};
ghost use Rattle.rehearsal.specs.Calls.{CallLeft};

use crate::files::Kind;
use node::Answer;
use node_rules::Node;
use std::marker::Model;

// A board: its record, and its slots in the first `count` places of four lists. What C calls has no heap, so each list has the most places that a file can fill.
#[derive(Drop)]
pub(crate) struct Bench {
    node: Node,
    count: usize,
    roles: [u8; 100],
    events: [u64; 100],
    statuses: [u8; 100],
    marks: [u8; 100],
}

impl Model for Bench {
    ghost Value = { Board };

    ghost view = { λ b. board_of b.node (slots_of (take b.count b.roles) (take b.count b.events) (take b.count b.statuses) (take b.count b.marks)) };

    ghost invariant = { λ b. b.count ≤ 100 };
}

impl Bench {
    // The board that a file starts with.
    pub(crate) fn of(file: &[u8]) -> Bench
        requires { (slot_count file.now ≤ 100) × (calls_at file.now ≤ length file.now) × (length file.now ≤ 65536) }
        ensures { result ≡ board_in file.now }
    {
        let count = file[16] as usize;
        let mut roles = [0u8; 100];
        let mut events = [0u64; 100];
        let mut statuses = [0u8; 100];
        for i in 0..count {
            let at = 17 + i * 10;
            roles[i] = file[at];
            events[i] = numbers::read_at(file, at + 1, 8);
            statuses[i] = file[at + 9];
        }
        let node = Node {
            id: numbers::read_at(file, 0, 8),
            state: 0,
            automatic: range::block_of(numbers::read_at(file, 8, 8)),
        };
        Bench {
            node,
            count,
            roles,
            events,
            statuses,
            marks: [0; 100],
        }
    }

    // The call at a place of the file, on the output's first bytes.
    pub(crate) fn call(&mut self, kind: Kind, file: &[u8], at: usize, out: &mut [u8]) -> Answer
        requires { (at < length file.now) × (length file.now ≤ 65536) × (good_call file.now at ≡ true) × (call_in file.now at ≡ number_of kind) × (length out.old ≡ 2048) }
        ensures { CallLeft (outcome_at self.old file.now at) result self.new out.new }
    {
        let from = at + kind.head_size();
        let end = at + kind.size(file, at);
        let room = kind.room(file, at);
        let call = kind.call(file, at);
        let n = self.count;
        let node = self.node;
        // Lent as copies: what a part of an array behind a reference becomes is not proved.
        let mut statuses = self.statuses;
        let mut marks = self.marks;
        let answer = node::perform(
            node,
            call,
            &file[from..end],
            &self.roles[..n],
            &self.events[..n],
            &mut statuses[..n],
            &mut marks[..n],
            &mut out[..room],
        );
        self.statuses = statuses;
        self.marks = marks;
        self.node = answer.node;
        answer
    }

    pub(crate) fn marks(&self) -> &[u8]
        ensures { result.now ≡ self.now.slots.marks }
    {
        &self.marks[..self.count]
    }
}
