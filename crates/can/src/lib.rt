// The CAN side: frames joined to event reports, and event reports split into frames.
#![tactic(auto)]

mod parts;
mod splitting;
mod state;

pub use parts::join;
pub use splitting::split;

// `hrislanoth_join` takes and gives these three as they lie in memory: so a length, a count and numbers stand where a slice, a list and a Result would.

// What was gathered of a message: its sender, its event, and the first `length` bytes of its payload.
#[repr(C)]
#[derive(Clone, Copy, PartialEq, Eq)]
pub struct Gathered {
    pub sender: u64,
    pub event: u64,
    pub length: usize,
    pub payload: [u8; 256],
}

// The joining state: what up to two senders have begun, the first `count` of the two.
#[repr(C)]
#[derive(Clone, Copy, PartialEq, Eq)]
pub struct Joining {
    pub count: usize,
    pub first: Gathered,
    pub second: Gathered,
}

// The refusal or 0; the message that is handed out, with MTI 0 where there is none; and the next joining state.
#[repr(C)]
#[derive(Clone, Copy, PartialEq, Eq)]
pub struct Joined {
    pub refusal: u8,
    pub mti: u16,
    pub message: Gathered,
    pub state: Joining,
}
