// What a message says to a box or to a board.
ghost use Rattle.std.specs.Prelude.{◌≡◌};
ghost use Rattle.message.specs.Saying.{saying, said_by};

use crate::{Kind, Message, Saying, mti};

// The two roles, in the numbers that the lists of slots have, which C lends.
const PRODUCER: u8 = 0;

const CONSUMER: u8 = 1;

// The one answer that boxes and boards go by.
pub fn said_by(message: Message) -> Saying
    ensures { result ≡ said_by message }
{
    let meaning = mti::meaning_of(message.mti);
    saying(meaning.kind, message.event, message.destination)
}

fn saying(kind: Kind, event: Option<u64>, destination: Option<u64>) -> Saying
    ensures { result ≡ saying kind event destination }
{
    match (kind, event) {
        (Kind::InitializationComplete, _) => Saying::Restart,
        (Kind::IdentifyEvents, _) => Saying::InquiryForAll(destination),
        (Kind::EventReport, Some(number)) => Saying::Report(number),
        (Kind::ConsumerIdentified, Some(number)) => Saying::Announcement(range::single(number)),
        (Kind::ConsumerRangeIdentified, Some(number)) => Saying::Announcement(range::block_of(
            number,
        )),
        (Kind::IdentifyProducer, Some(number)) => Saying::Inquiry(PRODUCER, number),
        (Kind::IdentifyConsumer, Some(number)) => Saying::Inquiry(CONSUMER, number),
        (Kind::LearnEvent, Some(number)) => Saying::Learn(number),
        _ => Saying::Nothing,
    }
}
