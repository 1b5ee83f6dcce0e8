// Bytes to a message.
ghost use Rattle.std.specs.Prelude.{◌≡◌, ◌≤◌};
ghost use Rattle.basics.specs.Refusals.{first_of, in_numbers, refusal_in, told_of};
ghost use Rattle.message.specs.Mti.{addressed};
ghost use Rattle.message.specs.Messages.{bad_where_present};
ghost use Rattle.message.specs.Reading.{field_at, fields_in, read_tests, read_told};

use crate::{Message, content, mti};
use basics::Refusal;

// The message that the bytes hold, or the refusal.
pub fn read(bytes: &[u8]) -> Result<Message, Refusal>
    ensures { told_of (in_numbers result) ≡ read_told bytes.now }
{
    check(bytes)?;
    let code = numbers::read_at(bytes, 0, 2) as u16;
    let message = fields(code, bytes);
    Ok(message)
}

// The refusals of reading: each field is tested before the next is read, so no message goes through memory.
fn check(bytes: &[u8]) -> Result<(), Refusal>
    ensures { refusal_in result ≡ first_of (read_tests bytes.now) }
{
    if bytes.len() < 2 {
        return Err(Refusal::TooShort);
    }
    let code = numbers::read_at(bytes, 0, 2) as u16;
    if mti::barred(code) {
        return Err(Refusal::BarredMti);
    }
    let at = mti::content_at(code);
    if bytes.len() < at {
        return Err(Refusal::TooShort);
    }
    let source = numbers::read_at(bytes, 2, 6);
    if content::bad_node(source) {
        return Err(Refusal::BadNode);
    }
    if bad_destination(code, bytes) {
        return Err(Refusal::BadNode);
    }
    if bytes.len() == at {
        return content::check_none(code);
    }
    content::check_content(code, source, &bytes[at..])
}

fn bad_destination(code: u16, bytes: &[u8]) -> bool
    ensures { result ≡ bad_where_present (field_at (addressed code) bytes.now 8 6) }
{
    code / 8 % 2 == 1 && content::bad_node(numbers::read_at(bytes, 8, 6))
}

fn fields(code: u16, bytes: &[u8]) -> Message
    ensures { result ≡ fields_in code bytes.now }
{
    Message {
        mti: code,
        source: numbers::read_at(bytes, 2, 6),
        destination: field_at(code / 8 % 2 == 1, bytes, 8, 6),
        event: field_at(code / 4 % 2 == 1, bytes, mti::event_at(code), 8),
    }
}

fn field_at(flag: bool, bytes: &[u8], at: usize, width: usize) -> Option<u64>
    requires { width ≤ 8 }
    ensures { result ≡ field_at flag bytes.now at width }
{
    if flag {
        Some(numbers::read_at(bytes, at, width))
    } else {
        None
    }
}
