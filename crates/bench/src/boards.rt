// The boards and the panel: real nodes with two slots each.
use node_rules::{Call, Node};

pub(crate) const ROUTE_OF_7: u64 = 0x0A00_0000_0007_0001;

pub(crate) const ROUTE_OF_9: u64 = 0x0A00_0000_0009_0001;

const PRODUCER: u8 = 0;

const CONSUMER: u8 = 1;

const UNKNOWN: u8 = 2;

#[derive(Clone, Copy)]
pub(crate) struct Board {
    node: Node,
    roles: [u8; 2],
    events: [u64; 2],
    statuses: [u8; 2],
    marks: [u8; 2],
}

// What a board wrote or matched.
#[derive(Clone, Copy)]
pub(crate) struct Done {
    bytes: [u8; 32],
    length: usize,
    pub(crate) matches: u64,
}

impl Done {
    pub(crate) fn written(&self) -> &[u8] {
        &self.bytes[..self.length.min(32)]
    }
}

impl Board {
    // The panel sends the routes of both boards.
    pub(crate) fn panel() -> Board {
        Board::laid_out(
            0x0A00_0000_0001,
            [PRODUCER, PRODUCER],
            [ROUTE_OF_7, ROUTE_OF_9],
        )
    }

    // A board takes its route, and tells when its points have moved.
    pub(crate) fn points(id: u64, route: u64, moved: u64) -> Board {
        Board::laid_out(id, [CONSUMER, PRODUCER], [route, moved])
    }

    fn laid_out(id: u64, roles: [u8; 2], events: [u64; 2]) -> Board {
        Board {
            node: Node {
                id,
                state: 0,
                automatic: range::block_of(range::HOUSE),
            },
            roles,
            events,
            statuses: [UNKNOWN; 2],
            marks: [0; 2],
        }
    }

    // A call on the board, with the message that reached it, if the call is to take one.
    pub(crate) fn does(&mut self, call: Call, message: &[u8]) -> Done {
        let mut bytes = [0; 32];
        let answer = node::perform(
            self.node,
            call,
            message,
            &self.roles,
            &self.events,
            &mut self.statuses,
            &mut self.marks,
            &mut bytes,
        );
        self.node = answer.node;
        Done {
            bytes,
            length: answer.bytes,
            matches: answer.matches,
        }
    }
}
