// What is printed of a case.
use basics::Refusal;
use message::{Kind, Message, Saying};
use std::io;

// A byte string: the MTI, the source, and the number that fills the rest, six bytes at a time.
pub(crate) fn read(
    rt: &impl Print,
    mti: u16,
    source: u64,
    rest: u64,
    length: usize,
) -> io::Result<()> {
    let bytes = laid_out(mti, source, rest);
    let Some(bytes) = bytes.get(..length) else {
        return Ok(());
    };
    print!(rt; "{mti:04x} {length}")?;
    match message::read(bytes) {
        Ok(m) => {
            describe(rt, m)?;
            write_back(rt, m, bytes)?;
        }
        Err(refusal) => refused(rt, refusal)?,
    }
    println!(rt; "")
}

fn laid_out(mti: u16, source: u64, rest: u64) -> [u8; 512] {
    let mut bytes = [0u8; 512];
    numbers::write_at(u64::from(mti), 2, 0, &mut bytes);
    numbers::write_at(source, 6, 2, &mut bytes);
    for six in bytes[8..].chunks_mut(6) {
        numbers::write(rest, six);
    }
    bytes
}

// Writes what was read once more, into as much room and into a byte less.
fn write_back(rt: &impl Print, m: Message, bytes: &[u8]) -> io::Result<()> {
    let mut out = [0u8; 512];
    let Some(content) = bytes.get(message::content_at(m.mti)..) else {
        return Ok(());
    };
    let Some(room) = out.get_mut(..bytes.len()) else {
        return Ok(());
    };
    print!(rt; ", content {}", content.len())?;
    match message::write(m, content, room) {
        Ok(n) if n == bytes.len() && bytes == &*room => print!(rt; ", written back")?,
        Ok(_) => print!(rt; ", written otherwise")?,
        Err(refusal) => refused(rt, refusal)?,
    }
    let Some((_, room)) = room.split_first_mut() else {
        return Ok(());
    };
    print!(rt; ", one byte short")?;
    match message::write(m, content, room) {
        Ok(_) => print!(rt; " written"),
        Err(refusal) => refused(rt, refusal),
    }
}

// A message that is made: how many bytes of content, and of room.
pub(crate) fn write(rt: &impl Print, m: Message, content: usize, room: usize) -> io::Result<()> {
    let body = [7u8; 512];
    let mut out = [0u8; 512];
    print!(rt; "write {:04x}", m.mti)?;
    describe(rt, m)?;
    if let Some(body) = body.get(..content)
        && let Some(out) = out.get_mut(..room)
    {
        print!(rt; ", content {content}, room {room}")?;
        match message::write(m, body, out) {
            Ok(n) => print!(rt; ": {n}")?,
            Err(refusal) => refused(rt, refusal)?,
        }
    }
    println!(rt; "")
}

fn describe(rt: &impl Print, m: Message) -> io::Result<()> {
    let kind = name_of(message::meaning_of(m.mti).kind);
    print!(rt; ": {kind}, from {:x}", m.source)?;
    if let Some(destination) = m.destination {
        print!(rt; ", to {destination:x}")?;
    }
    if let Some(event) = m.event {
        print!(rt; ", event {event:x}")?;
    }
    if let Saying::Announcement(block) = message::said_by(m) {
        print!(rt; ", announces {:x} k {}", block.start, block.k)?;
    }
    Ok(())
}

fn name_of(kind: Kind) -> &'static str {
    match kind {
        Kind::InitializationComplete => "initialization complete",
        Kind::EventReport => "event report",
        Kind::IdentifyConsumer => "identify consumer",
        Kind::IdentifyProducer => "identify producer",
        Kind::ConsumerIdentified => "consumer identified",
        Kind::ProducerIdentified => "producer identified",
        Kind::ConsumerRangeIdentified => "consumer range identified",
        Kind::ProducerRangeIdentified => "producer range identified",
        Kind::IdentifyEvents => "identify events",
        Kind::LearnEvent => "learn event",
        Kind::Other => "other",
    }
}

fn refused(rt: &impl Print, refusal: Refusal) -> io::Result<()> {
    print!(rt; ": refused {}", u8::from(refusal))
}
