// A frame of the CAN bus, and what it is of an event report. What is done with them is defined in specs/ and proved in proofs/.
#![tactic(auto)]

// A header has 29 bits; one of the 32 that are given with any of the upper three set is another one. Of the bytes the first `length` are used, as `hrislanoth_join` is given them.
#[repr(C)]
#[derive(Clone, Copy, PartialEq, Eq)]
pub struct Frame {
    pub header: u32,
    pub length: u8,
    pub bytes: [u8; 8],
}

// An event report without payload is whole in one frame; one with payload has a start, middles and a last.
#[derive(Clone, Copy, PartialEq, Eq)]
pub enum Part {
    Whole,
    Start,
    Middle,
    Last,
    OtherHeader,
}
