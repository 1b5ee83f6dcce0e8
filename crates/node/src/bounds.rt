// Whether a board is out of bounds, and the refusals that every call can give.
ghost use Rattle.std.specs.Prelude.{◌≡◌, length};
ghost use Rattle.basics.specs.Refusals.{first_of, refusal_in};
ghost use Rattle.node_rules.specs.Boards.{bad_lengths, bad_record, bad_slot, bad_slots};
ghost use Rattle.node_rules.specs.Calls.{board_tests};
ghost use Rattle.node.specs.Lent.{slots_of, board_of};

use crate::board::{ADVERTISED, CONSUMER, INITIALIZED, NOT_INITIALIZED, UNKNOWN};
use basics::Refusal;
use node_rules::Node;

// Refusal 7 or 3, in this order.
#[tactic(auto, unfolding(node_rules::specs::Boards::out_of_bounds))]
pub(crate) fn check(
    node: Node,
    roles: &[u8],
    events: &[u64],
    statuses: &[u8],
    marks: &[u8],
) -> Result<(), Refusal>
    ensures { refusal_in result ≡ first_of (board_tests (board_of node (slots_of roles.now events.now statuses.now marks.now))) }
{
    if bad_lengths(roles.len(), events.len(), statuses.len(), marks.len())
        || bad_record(node)
        || bad_slots(node.state, roles, statuses, marks)
    {
        return Err(Refusal::OutOfBounds);
    }
    if message::bad_node(node.id) {
        return Err(Refusal::BadNode);
    }
    Ok(())
}

fn bad_lengths(roles: usize, events: usize, statuses: usize, marks: usize) -> bool
    ensures { result ≡ bad_lengths roles events statuses marks }
{
    events != roles || statuses != roles || marks != roles || 64 < roles
}

fn bad_record(node: Node) -> bool
    ensures { result ≡ bad_record node }
{
    INITIALIZED < node.state || range::number_of(node.automatic).is_err()
}

fn bad_slots(state: u8, roles: &[u8], statuses: &[u8], marks: &[u8]) -> bool
    requires { (length statuses.now ≡ length roles.now) × (length marks.now ≡ length roles.now) }
    ensures { result ≡ bad_slots state (slots_of roles.now roles.now statuses.now marks.now) }
{
    for (i, role) in roles.iter().enumerate() {
        if bad_slot(state, *role, statuses[i], marks[i]) {
            return true;
        }
    }
    false
}

fn bad_slot(state: u8, role: u8, status: u8, mark: u8) -> bool
    ensures { result ≡ bad_slot state role status mark }
{
    CONSUMER < role
        || UNKNOWN < status
        || ADVERTISED < mark
        || (mark == ADVERTISED && state == NOT_INITIALIZED)
}
