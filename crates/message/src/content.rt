// What reading and writing both test of a message and its content.
ghost use Rattle.std.specs.Prelude.{◌≡◌, cond, ltb};
ghost use Rattle.basics.specs.Refusals.{first_of, refusal_in};
ghost use Rattle.message.specs.Messages.{bad_node, bad_where_present, misplaced as is_misplaced, content_tests, rest_tests};
ghost use Rattle.message.specs.Mti.{is_restart, meaning_of};

use crate::{Kind, Message, mti};
use basics::Refusal;

// The refusals 3, 4 and 5 in this order.
pub(crate) fn check(message: Message, content: &[u8]) -> Result<(), Refusal>
    ensures { refusal_in result ≡ first_of (content_tests message content.now) }
{
    let code = message.mti;
    if bad_node(message.source) {
        return Err(Refusal::BadNode);
    }
    if bad_where_present(message.destination) {
        return Err(Refusal::BadNode);
    }
    if misplaced(code / 8 % 2 == 1, message.destination) {
        return Err(Refusal::BadContent);
    }
    if misplaced(code / 4 % 2 == 1, message.event) {
        return Err(Refusal::BadContent);
    }
    if content.is_empty() {
        return check_none(code);
    }
    check_content(code, message.source, content)
}

// The refusals of the content alone, 4 and 5 in this order.
pub(crate) fn check_content(code: u16, source: u64, content: &[u8]) -> Result<(), Refusal>
    ensures { refusal_in result ≡ first_of (rest_tests code source content.now) }
{
    let meaning = mti::meaning_of(code);
    if content.len() < meaning.least {
        return Err(Refusal::BadContent);
    }
    if meaning.most < content.len() {
        return Err(Refusal::BadContent);
    }
    if !is_restart(meaning.kind) {
        return Ok(());
    }
    if numbers::read(content) == source {
        Ok(())
    } else {
        Err(Refusal::OtherSource)
    }
}

// The refusal where there is no content. Only the table's least is asked, of which the compiler makes a test of the few MTIs that have one.
pub(crate) fn check_none(code: u16) -> Result<(), Refusal>
    ensures { refusal_in result ≡ cond (ltb 0 (meaning_of code).least) 4 0 }
{
    let meaning = mti::meaning_of(code);
    if 0 < meaning.least {
        Err(Refusal::BadContent)
    } else {
        Ok(())
    }
}

// Refusal 3: a Node ID that is zero or above 48 bits.
pub fn bad_node(id: u64) -> bool
    ensures { result ≡ bad_node id }
{
    id == 0 || 0x1_0000_0000_0000 <= id
}

fn bad_where_present(field: Option<u64>) -> bool
    ensures { result ≡ bad_where_present field }
{
    field.is_some_and(|id| bad_node(id))
}

// Whether a field is present or absent against its flag.
fn misplaced(flag: bool, field: Option<u64>) -> bool
    ensures { result ≡ is_misplaced flag field }
{
    flag != field.is_some()
}

fn is_restart(kind: Kind) -> bool
    ensures { result ≡ is_restart kind }
{
    kind == Kind::InitializationComplete
}
