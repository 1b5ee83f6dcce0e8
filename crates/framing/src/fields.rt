// The frame and the message of a step.
ghost use Rattle.std.specs.Prelude.{◌≡◌, ◌+◌, ◌≤◌, length};
ghost use Rattle.can_rules.specs.Frames.{frame_at};
ghost use Rattle.framing.specs.Files.{marked_at, message_at};

use can_rules::Frame;
use message::Message;

pub(crate) fn frame_at(file: &[u8], at: usize) -> Frame
    requires { (at + 13 ≤ length file.now) × (length file.now ≤ 65536) }
    ensures { result ≡ frame_at file.now at }
{
    let mut bytes = [0u8; 8];
    numbers::write(numbers::read_at(file, at + 5, 8), &mut bytes);
    Frame {
        header: numbers::read_at(file, at, 4) as u32,
        length: file[at + 4],
        bytes,
    }
}

pub(crate) fn message_at(file: &[u8], at: usize) -> Message
    requires { (at + 29 ≤ length file.now) × (length file.now ≤ 65536) }
    ensures { result ≡ message_at file.now at }
{
    Message {
        mti: numbers::read_at(file, at + 1, 2) as u16,
        source: numbers::read_at(file, at + 3, 8),
        destination: marked_at(file, at + 11),
        event: marked_at(file, at + 20),
    }
}

// A field that stands behind its mark.
fn marked_at(file: &[u8], at: usize) -> Option<u64>
    requires { (at + 9 ≤ length file.now) × (length file.now ≤ 65536) }
    ensures { result ≡ marked_at file.now at }
{
    if file[at] == 1 {
        Some(numbers::read_at(file, at + 1, 8))
    } else {
        None
    }
}
