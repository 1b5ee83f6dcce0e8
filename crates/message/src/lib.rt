// Messages: what an MTI means, bytes to a message and back, and what a message says (003 section 3.1; 001 section 4).
#![tactic(auto)]

mod content;
mod mti;
mod reader;
mod said;
mod writer;

pub use content::bad_node;
pub use mti::{content_at, meaning_of};
use range::Block;
pub use reader::read;
pub use said::said_by;
pub use writer::write;

#[derive(Clone, Copy, PartialEq, Eq)]
pub enum Kind {
    InitializationComplete,
    EventReport,
    IdentifyConsumer,
    IdentifyProducer,
    ConsumerIdentified,
    ProducerIdentified,
    ConsumerRangeIdentified,
    ProducerRangeIdentified,
    IdentifyEvents,
    LearnEvent,
    Other,
}

// A row of the message table: the kind, and the least and the most content bytes.
#[derive(Clone, Copy, PartialEq, Eq)]
pub struct Meaning {
    pub kind: Kind,
    pub least: usize,
    pub most: usize,
}

// The content stays in the caller's bytes, from content_at(mti) on.
#[derive(Clone, Copy, PartialEq, Eq)]
pub struct Message {
    pub mti: u16,
    pub source: u64,
    pub destination: Option<u64>,
    pub event: Option<u64>,
}

// What a message says to a box or to a board: a report of an event, an announcement of a block, a restart, an inquiry for the slots of a role
// with an event, one for all slots with its destination, an event to learn, or nothing of these.
#[derive(Clone, Copy, PartialEq, Eq)]
pub enum Saying {
    Report(u64),
    Announcement(Block),
    Restart,
    Inquiry(u8, u64),
    InquiryForAll(Option<u64>),
    Learn(u64),
    Nothing,
}
