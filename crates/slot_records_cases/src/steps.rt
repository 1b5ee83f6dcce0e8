// The calls of a board file; what lies beyond its end is zero.
use node_rules::Call;

// A call, the message that it is to take, how much room is lent, and how many bytes of the file it takes.
#[derive(Clone, Copy)]
pub(crate) struct Step<'a> {
    pub(crate) call: Call,
    pub(crate) message: &'a [u8],
    pub(crate) room: usize,
    pub(crate) length: usize,
}

impl<'a> Step<'a> {
    pub(crate) fn first_of(rest: &'a [u8]) -> Step<'a> {
        let kind = byte(rest, 0);
        let slot = usize::from(byte(rest, 3));
        let message_end = 5 + (numbers::read_at(rest, 3, 2) % 0x1_0000) as usize;
        let call = match kind {
            1 => Call::Initialise,
            2 => Call::Announce(slot),
            3 => Call::Produce(slot),
            4 => Call::SetStatus(usize::from(byte(rest, 1)), byte(rest, 2)),
            _ => Call::Receive,
        };
        let length = match kind {
            1 | 4 => 3,
            5 => message_end,
            _ => 4,
        };
        Step {
            call,
            message: rest.get(5..message_end).unwrap_or(b""),
            room: numbers::read_at(rest, 1, 2) as usize,
            length,
        }
    }
}

pub(crate) fn byte(file: &[u8], at: usize) -> u8 {
    file.get(at).copied().unwrap_or(0)
}

// The calls stand behind the slots.
pub(crate) fn calls_of(file: &[u8]) -> &[u8] {
    let slots = usize::from(byte(file, 16));
    file.get(17 + slots * 10..).unwrap_or(b"")
}
