// Boards that are laid out, and the calls on them.
use crate::commands::Command;
use crate::report;
use case_files::Places;
use node::Answer;
use node_rules::{Call, Node};
use range::Block;
use std::io;

// How much of each list is lent.
#[derive(Clone, Copy)]
pub(crate) struct Lengths {
    pub(crate) roles: u64,
    pub(crate) events: u64,
    pub(crate) statuses: u64,
    pub(crate) marks: u64,
}

// What is put at places of the lists, and how much the event rises each time.
#[derive(Clone, Copy)]
pub(crate) struct Filling {
    pub(crate) places: Places,
    pub(crate) role: u8,
    pub(crate) event: u64,
    pub(crate) status: u8,
    pub(crate) mark: u8,
    pub(crate) step: u64,
}

#[derive(Clone, Copy)]
pub(crate) struct Message {
    bytes: [u8; 512],
    length: usize,
}

impl Message {
    pub(crate) fn none() -> Message {
        Message {
            bytes: [0; 512],
            length: 0,
        }
    }

    // A message with so many bytes of 07 behind those that are written out.
    pub(crate) fn new(written: [u8; 512], length: usize, more: u64) -> Message {
        let length = length.min(512);
        let mut bytes = [7; 512];
        bytes[..length].copy_from_slice(&written[..length]);
        Message {
            bytes,
            length: (length + (more % 513) as usize) % 513,
        }
    }
}

// The record and the lists, which have a place more than a board may have slots.
#[derive(Clone, Copy)]
pub(crate) struct Bench {
    node: Node,
    lengths: Lengths,
    roles: [u8; 65],
    events: [u64; 65],
    statuses: [u8; 65],
    marks: [u8; 65],
}

impl Bench {
    pub(crate) fn bare() -> Bench {
        Bench {
            node: Node {
                id: 0,
                state: 0,
                automatic: Block { start: 0, k: 0 },
            },
            lengths: Lengths {
                roles: 0,
                events: 0,
                statuses: 0,
                marks: 0,
            },
            roles: [0; 65],
            events: [0; 65],
            statuses: [0; 65],
            marks: [0; 65],
        }
    }

    fn fill(&mut self, filling: Filling) {
        let mut event = filling.event;
        for at in 0..65 {
            if filling.places.has(at as u64) {
                self.roles[at] = filling.role;
                self.events[at] = event;
                self.statuses[at] = filling.status;
                self.marks[at] = filling.mark;
                event = event.wrapping_add(filling.step);
            }
        }
    }

    fn call(
        &mut self,
        rt: &impl Print,
        call: Call,
        message: &Message,
        room: u64,
    ) -> io::Result<()> {
        let mut out = [report::UNTOUCHED; 1040];
        let out = &mut out[..(room % 1041) as usize];
        let answer = self.made(call, &message.bytes[..message.length.min(512)], out);
        self.node = answer.node;
        let marks = &self.marks[..(self.lengths.marks % 66) as usize];
        let statuses = &self.statuses[..(self.lengths.statuses % 66) as usize];
        report::told(rt, answer, out, marks, statuses)
    }

    // By the five public calls, so that each of them is tried.
    fn made(&mut self, call: Call, message: &[u8], out: &mut [u8]) -> Answer {
        let node = self.node;
        let roles = &self.roles[..(self.lengths.roles % 66) as usize];
        let events = &self.events[..(self.lengths.events % 66) as usize];
        let statuses = &mut self.statuses[..];
        let statuses = &mut statuses[..(self.lengths.statuses % 66) as usize];
        let marks = &mut self.marks[..];
        let marks = &mut marks[..(self.lengths.marks % 66) as usize];
        match call {
            Call::Initialise => node::initialise(node, roles, events, statuses, marks, out),
            Call::Announce(i) => node::announce(node, i, roles, events, statuses, marks, out),
            Call::Produce(i) => node::produce(node, i, roles, events, statuses, marks, out),
            Call::SetStatus(i, s) => node::set_status(node, i, s, roles, events, statuses, marks),
            Call::Receive => node::receive(node, message, roles, events, statuses, marks, out),
        }
    }
}

// The board of the next call, and the one that was put by.
#[derive(Clone, Copy)]
pub(crate) struct Benches {
    pub(crate) now: Bench,
    pub(crate) kept: Bench,
}

impl Benches {
    pub(crate) fn obey(&mut self, rt: &impl Print, command: Command) -> io::Result<()> {
        match command {
            Command::Keep => self.kept = self.now,
            Command::Again => self.now = self.kept,
            Command::Record(node) => self.now.node = node,
            Command::Slots(filling) => self.now.fill(filling),
            Command::Lengths(lengths) => self.now.lengths = lengths,
            Command::Call(call, message, room) => self.now.call(rt, call, &message, room)?,
        }
        Ok(())
    }
}
