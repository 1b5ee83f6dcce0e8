// The legs: on each a board has an alias of its own.
use crate::reports::Hex;
use can::{Joined, Joining};
use can_rules::Frame;
use std::io;

const SIX: u64 = 0x0A00_0000_0006;

const SEVEN: u64 = 0x0A00_0000_0007;

// The board that stands on a leg and boards 6 and 7, whose reports the leg may carry: their aliases and their Node IDs.
#[derive(Clone, Copy)]
pub(crate) struct Leg {
    pub(crate) aliases: [u64; 3],
    pub(crate) nodes: [u64; 3],
}

impl Leg {
    pub(crate) fn at(number: u8) -> Leg {
        match number {
            0 => Leg {
                aliases: [0x100, 0x606, 0x707],
                nodes: [0x0A00_0000_0001, SIX, SEVEN],
            },
            1 => Leg {
                aliases: [0x808, 0x1C6, 0x1C7],
                nodes: [0x0A00_0000_0008, SIX, SEVEN],
            },
            2 => Leg {
                aliases: [0x2A7, 0x505, 0x2A6],
                nodes: [SEVEN, 0x0A00_0000_0005, SIX],
            },
            _ => Leg {
                aliases: [0x000, 0xFFF, 0x3B7],
                nodes: [0x0A00_0000_0009, SEVEN, SIX],
            },
        }
    }

    // A frame is said, and joined to what was begun.
    pub(crate) fn join(
        &self,
        rt: &impl Print,
        joining: &mut Joining,
        frame: Frame,
    ) -> io::Result<Joined> {
        let header = frame.header;
        let length = frame.length;
        print!(rt; "  {header:08X}{length:02X}{}", Hex(&frame.bytes))?;
        let joined = can::join(&self.aliases, &self.nodes, *joining, frame);
        *joining = joined.state;
        Ok(joined)
    }
}
