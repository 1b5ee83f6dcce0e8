// An event report to frames, written one after another.
ghost use Rattle.std.specs.Prelude.{◌≡◌, ◌+◌, ◌≤◌, ◌<◌, [], ◌∷◌, ◌++◌, length};
ghost use Rattle.numbers.specs.Numbers.{bytes_of, pasted};
ghost use Rattle.basics.specs.Refusals.{first_of, refusal_in, in_numbers, told_of};
ghost use Rattle.can_rules.specs.Aliases.{listed};
ghost use Rattle.can_rules.specs.Splitting.{frames_of, split_told, out_after_split};
ghost use Rattle.can.specs.Splits.{message_tests, room_told, out_where_room, to_do, room_for};

use basics::Refusal;
use can_aliases::AliasList;
use message::Message;

// 19000000 hex plus the MTI of each part times 1000 hex.
const WHOLE: u64 = 0x195B_4000;

const START: u64 = 0x19F1_6000;

const MIDDLE: u64 = 0x19F1_5000;

const LAST: u64 = 0x19F1_4000;

// Writes the frames of an event report to the start of out, and answers how many bytes they took, or the refusal. The list of aliases is two lists, as C lends it.
pub fn split(
    aliases: &[u64],
    nodes: &[u64],
    message: Message,
    payload: &[u8],
    out: &mut [u8],
) -> Result<usize, Refusal>
    ensures result_value { told_of (in_numbers result) ≡ split_told (listed aliases.now nodes.now) message payload.now out.old }
    ensures out_after { out.new ≡ out_after_split (listed aliases.now nodes.now) message payload.now out.old }
{
    let list = AliasList { aliases, nodes };
    if list.out_of_bounds() {
        return Err(Refusal::OutOfBounds);
    }
    check(message, payload)?;
    let alias = list.alias_for(message.source).ok_or(Refusal::NotListed)?;
    put_report(alias, message, payload, out)
}

// What the message alone is refused with: 2 to 5, and 29 where it is no report. With no room for a byte writing refuses as it does with room, or else with 6.
fn check(message: Message, payload: &[u8]) -> Result<(), Refusal>
    ensures { refusal_in result ≡ first_of (message_tests message payload.now) }
{
    let Err(refusal) = message::write(message, payload, &mut []) else {
        return Ok(());
    };
    if refusal != Refusal::NoRoom {
        return Err(refusal);
    }
    if message.mti != 0x05B4 && message.mti != 0x0F14 {
        return Err(Refusal::OtherHeader);
    }
    Ok(())
}

// Writes the frames where there is room for all of them.
fn put_report(
    alias: u64,
    message: Message,
    payload: &[u8],
    out: &mut [u8],
) -> Result<usize, Refusal>
    requires alias_bound { alias < 0x1000 }
    requires payload_value { first_of (message_tests message payload.now) ≡ 0 }
    ensures result_value { told_of (in_numbers result) ≡ room_told (frames_of alias message payload.now) out.old }
    ensures out_after { out.new ≡ out_where_room (frames_of alias message payload.now) out.old }
{
    let event = message.event.ok_or(Refusal::BadContent)?;
    if out.len() < 13 {
        return Err(Refusal::NoRoom);
    }
    if message.mti == 0x05B4 {
        put_frame(WHOLE + alias, 8, event, 0, out);
        return Ok(13);
    }
    let size = 13 * (2 + (payload.len() - 1) / 8);
    if out.len() < size {
        return Err(Refusal::NoRoom);
    }
    put_frame(START + alias, 8, event, 0, out);
    put_pieces(alias, payload, out);
    Ok(size)
}

// Writes the payload behind the first frame: frames of eight bytes while more than eight remain, and a last one.
fn put_pieces(alias: u64, payload: &[u8], out: &mut [u8])
    requires alias_bound { alias < 0x1000 }
    requires payload_nonzero { 0 < length payload.now }
    requires payload_in_bounds { 13 + room_for payload.now ≤ length out.old }
    ensures { out.new ≡ pasted 13 (to_do alias payload.now) out.old }
{
    let middles = (payload.len() - 1) / 8;
    for i in 0..middles {
        let number = numbers::read_at(payload, 8 * i, 8);
        put_frame(MIDDLE + alias, 8, number, 13 * (i + 1), out);
    }
    let from = 8 * middles;
    let left = payload.len() - from;
    let number = numbers::read_at(payload, from, left) << (64 - 8 * left);
    put_frame(LAST + alias, left as u8, number, 13 * (middles + 1), out);
}

// Writes a frame from a place on. It is lent as 13 bytes of their own, so that no store asks for room again.
fn put_frame(header: u64, size: u8, number: u64, at: usize, out: &mut [u8])
    requires { (at + 13 ≤ length out.old) × (header < 0x1_0000_0000) }
    ensures { out.new ≡ pasted at (bytes_of 4 header ++ ((size ∷ []) ++ bytes_of 8 number)) out.old }
{
    fill_frame(header, size, number, &mut out[at..at + 13]);
}

// Fills 13 bytes with a frame with the number's eight bytes. Header and length go as one number, whose last three bytes the frame's own cover: two stores and no loop.
fn fill_frame(header: u64, size: u8, number: u64, out: &mut [u8])
    requires { (length out.old ≡ 13) × (header < 0x1_0000_0000) }
    ensures { out.new ≡ bytes_of 4 header ++ ((size ∷ []) ++ bytes_of 8 number) }
{
    let front = header * 0x1_0000_0000 + (size as u64) * 0x0100_0000;
    numbers::write_at(front, 8, 0, out);
    numbers::write_at(number, 8, 5, out);
}
