// A step's call: a frame is joined, or a message is split.
ghost use Rattle.std.specs.Prelude.{◌≡◌, true, ◌+◌, ◌≤◌, [], length, take, get_or};
ghost use Rattle.can_rules.specs.Aliases.{listed};
ghost use Rattle.can_rules.specs.Frames.{frame_at};
ghost use Rattle.can_rules.specs.Joining.{join as join_of};
ghost use Rattle.can.specs.States.{handed_in};
ghost use Rattle.framing.specs.Files.{good_split, good_step, message_at, content_at, room_at};
ghost use Rattle.framing.specs.Kinds.{number_of};
ghost use Rattle.framing.specs.Shown.{shown_join, shown_split, shown_at};
ghost use Rattle.framing.specs.Steps.{aliases_on, begun_on, Writable, StepLeft, written_of};

use crate::fields;
use crate::files::Kind;
use can::{Gathered, Joining};
use message::Message;

// A leg of the box: its list of aliases, and what senders have begun on it.
#[derive(Drop)]
pub(crate) struct Leg<'a> {
    pub aliases: &'a [u64],
    pub nodes: &'a [u64],
    pub state: Joining,
}

impl<'a> Leg<'a> {
    // A leg on which no sender has begun.
    pub(crate) fn new(aliases: &'a [u64], nodes: &'a [u64]) -> Leg<'a>
        ensures list { aliases_on result ≡ listed aliases.now nodes.now }
        ensures nothing_begun { begun_on result ≡ [] }
    {
        Leg {
            aliases,
            nodes,
            state: Joining::new(),
        }
    }

    // The step at a place of the file: its bytes at the output's start, or the refusal's number.
    pub(crate) fn step(
        &mut self,
        kind: Kind,
        file: &[u8],
        at: usize,
        out: &mut [u8],
    ) -> Result<usize, u8>
        requires { (at ≤ length file.now) × (length file.now ≤ 65536) × (good_step file.now at ≡ true) × (get_or file.now at 0 ≡ number_of kind) × (length out.old ≡ 512) }
        ensures left { StepLeft (shown_at (aliases_on self.old) (begun_on self.old) file.now at) result (begun_on self.new) out.new }
        ensures aliases_kept { aliases_on self.new ≡ aliases_on self.old }
    {
        match kind {
            Kind::Join => self.join(file, at, out),
            Kind::Split => self.split(file, at, out),
        }
    }

    // The frame at a place of the file is joined, and what is handed out is written.
    fn join(&mut self, file: &[u8], at: usize, out: &mut [u8]) -> Result<usize, u8>
        requires { (at + 14 ≤ length file.now) × (length file.now ≤ 65536) × (length out.old ≡ 512) }
        ensures left { StepLeft (shown_join (join_of (aliases_on self.old) (begun_on self.old) (frame_at file.now (at + 1)))) result (begun_on self.new) out.new }
        ensures aliases_kept { aliases_on self.new ≡ aliases_on self.old }
    {
        let frame = fields::frame_at(file, at + 1);
        let joined = can::join(self.aliases, self.nodes, self.state, frame);
        self.state = joined.state;
        if joined.refusal != 0 {
            return Err(joined.refusal);
        }
        Ok(write_handed(joined.mti, joined.message, out))
    }

    // The message at a place of the file is split.
    fn split(&self, file: &[u8], at: usize, out: &mut [u8]) -> Result<usize, u8>
        requires { (at ≤ length file.now) × (length file.now ≤ 65536) × (good_split file.now at ≡ true) × (length out.old ≡ 512) }
        ensures { StepLeft (shown_split (aliases_on self.now) (begun_on self.now) (message_at file.now at) (content_at file.now at) (room_at file.now at)) result (begun_on self.now) out.new }
    {
        let from = at + 31;
        let end = from + numbers::read_at(file, at + 29, 2) as usize;
        let room = numbers::read_at(file, end, 2) as usize;
        let message = fields::message_at(file, at);
        let content = &file[from..end];
        let split = can::split(self.aliases, self.nodes, message, content, &mut out[..room])?;
        Ok(split)
    }
}

// Writes the report that is handed out; MTI 0 is none.
fn write_handed(mti: u16, handed: Gathered, out: &mut [u8]) -> usize
    requires { ((mti ≡ 0 → ⊥) → Writable (handed_in mti handed)) × (length out.old ≡ 512) }
    ensures { (result ≤ 512) × (take result out.new ≡ written_of (handed_in mti handed)) }
{
    if mti == 0 {
        return 0;
    }
    let message = Message {
        mti,
        source: handed.sender,
        destination: None,
        event: Some(handed.event),
    };
    let payload = handed.payload;
    message::write(message, &payload[..handed.length], out).unwrap()
}
