// Answers and messages without enums, as C has them.
ghost use Rattle.std.specs.Prelude.{◌≡◌};
ghost use Rattle.basics.specs.Refusals.{in_numbers, told_of, told_or};
ghost use Rattle.range.specs.Comparing.{comparison_told};
ghost use Rattle.c_face.specs.Flat.{told_number, message_of, message_from, told_reading, told_writing, field_of};

use basics::Refusal;
use message::Message;
use range::Comparison;

#[repr(C)]
#[derive(Clone, Copy)]
pub struct FlatNumber {
    pub refusal: u8,
    pub number: u64,
}

// A message without enums: a field is there where its number before it is not 0.
#[repr(C)]
#[derive(Clone, Copy)]
pub struct FlatMessage {
    pub mti: u16,
    pub source: u64,
    pub has_destination: u8,
    pub destination: u64,
    pub has_event: u8,
    pub event: u64,
}

#[repr(C)]
#[derive(Clone, Copy)]
pub struct FlatReading {
    pub refusal: u8,
    pub message: FlatMessage,
    pub content_at: usize,
}

#[repr(C)]
#[derive(Clone, Copy)]
pub struct FlatWriting {
    pub refusal: u8,
    pub bytes: usize,
}

impl From<Result<u64, Refusal>> for FlatNumber {
    ghost from_gives = { λ r f. f ≡ told_number (told_or 0 (in_numbers r)) };

    fn from(answer: Result<u64, Refusal>) -> FlatNumber {
        match answer {
            Ok(number) => FlatNumber { refusal: 0, number },
            Err(refusal) => FlatNumber {
                refusal: refusal.into(),
                number: 0,
            },
        }
    }
}

impl From<Result<Comparison, Refusal>> for FlatNumber {
    ghost from_gives = { λ r f. f ≡ told_number (comparison_told r) };

    fn from(answer: Result<Comparison, Refusal>) -> FlatNumber {
        FlatNumber::from(answer.map(|comparison| comparison as u64))
    }
}

impl From<Message> for FlatMessage {
    ghost from_gives = { λ m f. f ≡ message_of m };

    fn from(message: Message) -> FlatMessage {
        FlatMessage {
            mti: message.mti,
            source: message.source,
            has_destination: message.destination.is_some() as u8,
            destination: message.destination.unwrap_or(0),
            has_event: message.event.is_some() as u8,
            event: message.event.unwrap_or(0),
        }
    }
}

impl From<FlatMessage> for Message {
    ghost from_gives = { λ f m. m ≡ message_from f };

    fn from(message: FlatMessage) -> Message {
        Message {
            mti: message.mti,
            source: message.source,
            destination: field(message.has_destination, message.destination),
            event: field(message.has_event, message.event),
        }
    }
}

fn field(has: u8, x: u64) -> Option<u64>
    ensures { result ≡ field_of has x }
{
    if has == 0 { None } else { Some(x) }
}

impl From<Result<Message, Refusal>> for FlatReading {
    ghost from_gives = { λ r f. f ≡ told_reading (told_of (in_numbers r)) };

    fn from(answer: Result<Message, Refusal>) -> FlatReading {
        match answer {
            Ok(message) => FlatReading {
                refusal: 0,
                message: FlatMessage::from(message),
                content_at: message::content_at(message.mti),
            },
            Err(refusal) => FlatReading {
                refusal: u8::from(refusal),
                message: FlatMessage {
                    mti: 0,
                    source: 0,
                    has_destination: 0,
                    destination: 0,
                    has_event: 0,
                    event: 0,
                },
                content_at: 0,
            },
        }
    }
}

impl From<Result<usize, Refusal>> for FlatWriting {
    ghost from_gives = { λ r f. f ≡ told_writing (told_of (in_numbers r)) };

    fn from(answer: Result<usize, Refusal>) -> FlatWriting {
        match answer {
            Ok(bytes) => FlatWriting { refusal: 0, bytes },
            Err(refusal) => FlatWriting {
                refusal: u8::from(refusal),
                bytes: 0,
            },
        }
    }
}
