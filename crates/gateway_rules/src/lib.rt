// A line of the table, and why a report is sent to a port. What the box does with them is defined in specs/ and proved in proofs/.
#![tactic(auto)]

ghost use Rattle.std.specs.Prelude.{◌≡◌};
ghost use Rattle.gateway_rules.specs.Reasons.{reason_told};

use range::Block;

// What a node announced at a port.
#[repr(C)]
#[derive(Clone, Copy)]
pub struct Line {
    pub port: u8,
    pub node: u64,
    pub block: Block,
}

// The line that a reason names: its place in the table, whose it is, and what it holds.
#[derive(Clone, Copy)]
pub struct Holder {
    pub place: usize,
    pub node: u64,
    pub block: Block,
}

// Why a report is sent to a port or held back from it (document 02, W1), in that order.
#[derive(Clone, Copy)]
pub enum Reason {
    ArrivalPort,
    AutomaticEvent,
    OpenPort,
    HeldBy(Holder),
    NothingHolds,
}

impl From<Reason> for u8 {
    ghost from_gives = { λ r n. n ≡ (reason_told r).number };

    // Document 02's number.
    fn from(reason: Reason) -> u8 {
        match reason {
            Reason::ArrivalPort => 1,
            Reason::AutomaticEvent => 2,
            Reason::OpenPort => 3,
            Reason::HeldBy(_) => 4,
            Reason::NothingHolds => 5,
        }
    }
}
