// The box's state, as the code has it.
use range::Block;

// The state but for the lines and their index. Bit p of marks is the open mark of port p.
#[repr(C)]
#[derive(Clone, Copy)]
pub struct Head {
    pub ports: u8,
    pub marks: u8,
    pub automatic: Block,
    pub count: usize,
}

// Line i is at place i of four lists, which is less to copy than a list of lines. The index has the lines' numbers in order of port, size, first event
// and place, and sets of the sizes that occur. Places of the lines and of the order past the count are no part of the state.
#[repr(C)]
#[derive(Clone, Copy)]
pub struct Gateway {
    pub head: Head,
    pub nodes: [u64; 256],
    pub starts: [u64; 256],
    pub ports: [u8; 256],
    pub sizes: [u8; 256],
    pub order: [u8; 256],
    pub sets: [u64; 9],
}
