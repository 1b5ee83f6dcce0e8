// A message to bytes.
ghost use Rattle.std.specs.Prelude.{◌≡◌, ◌+◌, ◌≤◌, ◌++◌, length};
ghost use Rattle.numbers.specs.Numbers.{bytes_of, pasted};
ghost use Rattle.basics.specs.Refusals.{in_numbers, told_of};
ghost use Rattle.message.specs.Messages.{field_bytes, message_bytes};
ghost use Rattle.message.specs.Writing.{write_told, out_after};

use crate::{Message, content, mti};
use basics::Refusal;

// Writes the message with its content to the start of out, and answers how many bytes it took, or the refusal.
pub fn write(message: Message, body: &[u8], out: &mut [u8]) -> Result<usize, Refusal>
    ensures result_value { told_of (in_numbers result) ≡ write_told message body.now out.old }
    ensures out_after { out.new ≡ out_after message body.now out.old }
{
    if mti::barred(message.mti) {
        return Err(Refusal::BarredMti);
    }
    content::check(message, body)?;
    let at = mti::content_at(message.mti);
    if out.len() < at {
        return Err(Refusal::NoRoom);
    }
    if out.len() - at < body.len() {
        return Err(Refusal::NoRoom);
    }
    put_message(message, body, out);
    Ok(at + body.len())
}

fn put_message(message: Message, body: &[u8], out: &mut [u8])
    requires { length (message_bytes message body.now) ≤ length out.old }
    ensures { out.new ≡ pasted 0 (message_bytes message body.now) out.old }
{
    put_front(message.mti as u64, message.source, out);
    let after_destination = put_field(message.destination, 6, 8, out);
    let after_event = put_field(message.event, 8, after_destination, out);
    put_body(body, after_event, out);
}

// Writes the MTI and the source, the source first: so they are stored in the order of their low bytes.
fn put_front(code: u64, source: u64, out: &mut [u8])
    requires { 8 ≤ length out.old }
    ensures { out.new ≡ pasted 0 (bytes_of 2 code ++ bytes_of 6 source) out.old }
{
    numbers::write_at(source, 6, 2, out);
    numbers::write_at(code, 2, 0, out);
}

// Writes a field that is present at its place, and answers the place after it.
fn put_field(field: Option<u64>, width: usize, at: usize, out: &mut [u8]) -> usize
    requires { at + length (field_bytes width field) ≤ length out.old }
    ensures value { result ≡ at + length (field_bytes width field) }
    ensures out_after { out.new ≡ pasted at (field_bytes width field) out.old }
{
    match field {
        Some(x) => {
            numbers::write_at(x, width, at, out);
            at + width
        }
        None => at,
    }
}

// Byte by byte: for copy_from_slice the archive for C would need memmove beside memcpy and memset.
fn put_body(body: &[u8], at: usize, out: &mut [u8])
    requires { at + length body.now ≤ length out.old }
    ensures { out.new ≡ pasted at body.now out.old }
{
    for i in 0..body.len() {
        out[at + i] = body[i];
    }
}
