// A node's own record and a call on a board, as the code has them. What a board does is defined in specs/ and proved in proofs/.
#![tactic(auto)]

use range::Block;

// State 0 is not Initialized, 1 Initialized: a number, as C passes the record.
#[repr(C)]
#[derive(Clone, Copy)]
pub struct Node {
    pub id: u64,
    pub state: u8,
    pub automatic: Block,
}

// A call in numbers: the slot where there is one, and the status to be set. The bytes that are received and the output stand beside it.
#[derive(Clone, Copy)]
pub enum Call {
    Initialise,
    Announce(usize),
    Produce(usize),
    SetStatus(usize, u8),
    Receive,
}
