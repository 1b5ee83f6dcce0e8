// The CAN side.
ghost use Rattle.std.specs.Prelude.{◌≡◌, drop};
ghost use Rattle.text.specs.Text.{filled_at, end_at};
ghost use Rattle.framing.specs.Lines.{text_of as frame_text};
ghost use Rattle.can_rules.specs.Aliases.{listed};
ghost use Rattle.can_rules.specs.Joining.{join as join_of};
ghost use Rattle.can_rules.specs.Splitting.{split_told, out_after_split};
ghost use Rattle.can.specs.States.{state_of, seen_in, seen_of, RefusalKeeps, NoPayloadIsZero};
ghost use Rattle.c_face.specs.Flat.{message_from, told_writing};

use crate::{FlatMessage, FlatWriting};
use can::{Joined, Joining};
use can_rules::Frame;
use message::Message;

#[unsafe(no_mangle)]
pub extern "C" fn hrislanoth_join(
    aliases: &[u64],
    nodes: &[u64],
    state: Joining,
    frame: Frame,
) -> Joined
    ensures result_value { seen_in result ≡ seen_of (join_of (listed aliases.now nodes.now) (state_of state) frame) }
    ensures refusal_keeps { RefusalKeeps state result }
    ensures no_payload_is_zero { NoPayloadIsZero result }
{
    can::join(aliases, nodes, state, frame)
}

#[unsafe(no_mangle)]
pub extern "C" fn hrislanoth_split(
    aliases: &[u64],
    nodes: &[u64],
    message: FlatMessage,
    content: &[u8],
    out: &mut [u8],
) -> FlatWriting
    ensures value { result ≡ told_writing (split_told (listed aliases.now nodes.now) (message_from message) content.now out.old) }
    ensures out_after { out.new ≡ out_after_split (listed aliases.now nodes.now) (message_from message) content.now out.old }
{
    let message = Message::from(message);
    FlatWriting::from(can::split(aliases, nodes, message, content, out))
}

#[unsafe(no_mangle)]
pub extern "C" fn hrislanoth_frame_text(file: &[u8], skip: usize, text: &mut [u8]) -> usize
    ensures value { result ≡ end_at 0 (drop skip (frame_text file.now)) text.old }
    ensures text_after { text.new ≡ filled_at 0 (drop skip (frame_text file.now)) text.old }
{
    framing::frame_text(file, skip, text)
}
