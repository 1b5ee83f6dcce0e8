// What a board writes; its tests leave message::write nothing to refuse.
ghost use Rattle.std.specs.Prelude.{◌≡◌, false, ◌+◌, ◌*◌, ◌≤◌, [], length};
ghost use Rattle.numbers.specs.Numbers.{bytes_of, pasted};
ghost use Rattle.basics.specs.Refusals.{first_of, refusal_in};
ghost use Rattle.message.specs.Messages.{bad_node, message_bytes};
ghost use Rattle.node_rules.specs.Sending.{Plain, with_event, complete_by, by_status, identified_mti};
ghost use Rattle.node_rules.specs.Calls.{reply_tests};

use crate::board::{INVALID, PRODUCER, VALID};
use basics::Refusal;
use message::Message;

// Every message with an event has 16 bytes.
const SIZE: usize = 16;

// Whether so many messages with an event fit: refusal 13 or 6, in this order.
pub(crate) fn check_room(messages: usize, room: usize) -> Result<(), Refusal>
    requires { messages ≤ 64 }
    ensures { refusal_in result ≡ first_of (reply_tests (messages * 16) room) }
{
    let bytes = messages * SIZE;
    if 1024 < bytes {
        return Err(Refusal::TooManyReplies);
    }
    if room < bytes {
        return Err(Refusal::NoRoom);
    }
    Ok(())
}

// Writes a message with an event at a place of the output.
pub(crate) fn put(mti: u16, id: u64, event: u64, at: usize, out: &mut [u8])
    requires plain { Plain mti }
    requires id_value { bad_node id ≡ false }
    requires at_in_bounds { at + 16 ≤ length out.old }
    ensures { out.new ≡ pasted at (message_bytes (with_event mti id event) []) out.old }
{
    let m = Message {
        mti,
        source: id,
        destination: None,
        event: Some(event),
    };
    let _ = message::write(m, b"", &mut out[at..at + SIZE]);
}

// Writes Initialization Complete at the start of the output.
pub(crate) fn complete(id: u64, out: &mut [u8])
    requires id_value { bad_node id ≡ false }
    requires in_bounds { 14 ≤ length out.old }
    ensures { out.new ≡ pasted 0 (message_bytes (complete_by id) (bytes_of 6 id)) out.old }
{
    let mut content = [0u8; 6];
    numbers::write(id, &mut content);
    let m = Message {
        mti: 0x0100,
        source: id,
        destination: None,
        event: None,
    };
    let _ = message::write(m, &content, out);
}

#[tactic(auto, unfolding(node_rules::specs::Sending::identified_mti))]
pub(crate) fn identified_mti(role: u8, status: u8) -> u16
    ensures { result ≡ identified_mti role status }
{
    if role == PRODUCER {
        by_status(status, 0x0544, 0x0545, 0x0547)
    } else {
        by_status(status, 0x04C4, 0x04C5, 0x04C7)
    }
}

fn by_status(status: u8, valid: u16, invalid: u16, unknown: u16) -> u16
    ensures { result ≡ by_status status valid invalid unknown }
{
    match status {
        VALID => valid,
        INVALID => invalid,
        _ => unknown,
    }
}
