// A board that has passed the tests of every call: its record, and its slots in the lists that a caller lends.
ghost use Rattle.node.specs.Lent.{slots_of, board_of, Checked};

use node_rules::Node;

// Roles, states of a node, statuses and marks are numbers, as C lends them: no enum, since C may lend any number, which is then refused.
pub(crate) const PRODUCER: u8 = 0;

pub(crate) const CONSUMER: u8 = 1;

pub(crate) const NOT_INITIALIZED: u8 = 0;

pub(crate) const INITIALIZED: u8 = 1;

pub(crate) const VALID: u8 = 0;

pub(crate) const INVALID: u8 = 1;

pub(crate) const UNKNOWN: u8 = 2;

pub(crate) const UNADVERTISED: u8 = 0;

pub(crate) const ADVERTISED: u8 = 1;

#[derive(Drop)]
pub(crate) struct Board<'a> {
    pub(crate) node: Node,
    pub(crate) roles: &'a [u8],
    pub(crate) events: &'a [u64],
    pub(crate) statuses: &'a mut [u8],
    pub(crate) marks: &'a mut [u8],
    ghost checked: { Checked (board_of node (slots_of roles.now events.now statuses.now marks.now)) },
}
