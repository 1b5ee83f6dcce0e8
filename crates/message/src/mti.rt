// What an MTI means.
ghost use Rattle.std.specs.Prelude.{◌≡◌};
ghost use Rattle.message.specs.Mti.{meaning, meaning_of, event_at, content_at, barred as is_barred};

use crate::{Kind, Meaning};

// The row of the message table for an MTI.
pub fn meaning_of(mti: u16) -> Meaning
    ensures { result ≡ meaning_of mti }
{
    match mti {
        0x0100 | 0x0110 => row(Kind::InitializationComplete, 6, 6),
        0x05B4 => row(Kind::EventReport, 0, 0),
        0x0F14 => row(Kind::EventReport, 1, 256),
        0x08F4 => row(Kind::IdentifyConsumer, 0, 0),
        0x0914 => row(Kind::IdentifyProducer, 0, 0),
        0x04C4 => row(Kind::ConsumerIdentified, 0, 0),
        0x04C5 | 0x04C7 => row(Kind::ConsumerIdentified, 0, 0),
        0x0544 => row(Kind::ProducerIdentified, 0, 0),
        0x0545 | 0x0547 => row(Kind::ProducerIdentified, 0, 0),
        0x04A4 => row(Kind::ConsumerRangeIdentified, 0, 0),
        0x0524 => row(Kind::ProducerRangeIdentified, 0, 0),
        0x0970 | 0x0968 => row(Kind::IdentifyEvents, 0, 0),
        0x0594 => row(Kind::LearnEvent, 0, 0),
        _ => row(Kind::Other, 0, 72),
    }
}

fn row(kind: Kind, least: usize, most: usize) -> Meaning
    ensures { result ≡ meaning kind least most }
{
    Meaning { kind, least, most }
}

// Where the content starts in the bytes of a message.
pub fn content_at(mti: u16) -> usize
    ensures { result ≡ content_at mti }
{
    if mti / 8 % 2 == 1 {
        if mti / 4 % 2 == 1 { 22 } else { 14 }
    } else {
        if mti / 4 % 2 == 1 { 16 } else { 8 }
    }
}

// Where the Event ID stands, if there is one.
pub(crate) fn event_at(mti: u16) -> usize
    ensures { result ≡ event_at mti }
{
    if mti / 8 % 2 == 1 { 14 } else { 8 }
}

// Refusal 2.
pub(crate) fn barred(mti: u16) -> bool
    ensures { result ≡ is_barred mti }
{
    mti / 0x8000 % 2 == 1 || mti / 0x4000 % 2 == 1 || mti == 0x0F15 || mti == 0x0F16
}
