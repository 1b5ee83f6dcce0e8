// The cases: an MTI, a source, what fills the bytes after it, and how many bytes there are in all.
use crate::report::{read, write};
use message::Message;
use std::io;

const BOARD: u64 = 0x0A00_0000_0001;

const OTHER: u64 = 0x0A00_0000_0002;

const EVENT: u64 = 0x0A00_0000_0001_0001;

// Each row of document 01's table.
pub(crate) fn rows(rt: &impl Print) -> io::Result<()> {
    for (mti, rest, length) in [
        (0x0100, BOARD, 14),
        (0x0110, BOARD, 14),
        (0x05B4, OTHER, 16),
        (0x0F14, OTHER, 17),
        (0x08F4, OTHER, 16),
        (0x0914, OTHER, 16),
        (0x04C4, OTHER, 16),
        (0x04C5, OTHER, 16),
        (0x04C7, OTHER, 16),
        (0x0544, OTHER, 16),
        (0x0545, OTHER, 16),
        (0x0547, OTHER, 16),
        (0x04A4, OTHER, 16),
        (0x0524, OTHER, 16),
        (0x0970, OTHER, 8),
        (0x0968, OTHER, 14),
        (0x0594, OTHER, 16),
        (0x0490, OTHER, 8),
    ] {
        read(rt, mti, BOARD, rest, length)?;
    }
    Ok(())
}

// The MTIs beside those that announce, and beside the report with payload.
pub(crate) fn neighbours(rt: &impl Print) -> io::Result<()> {
    for (mti, length) in [
        (0x04C3, 16),
        (0x04C6, 16),
        (0x04C8, 16),
        (0x0543, 16),
        (0x0546, 16),
        (0x0548, 16),
        (0x04A3, 16),
        (0x04A5, 16),
        (0x0F13, 17),
        (0x0F15, 17),
        (0x0F16, 16),
        (0x0F17, 17),
    ] {
        read(rt, mti, BOARD, OTHER, length)?;
    }
    Ok(())
}

// Bits 12 and 13 leave the layout as it is; bits 14 and 15 are refused.
pub(crate) fn reserved_bits(rt: &impl Print) -> io::Result<()> {
    for (mti, length) in [
        (0x15B4, 16),
        (0x25B4, 16),
        (0x35B4, 15),
        (0x3FFF, 22),
        (0x45B4, 16),
        (0x85B4, 16),
        (0xFFFF, 22),
        (0x4000, 2),
    ] {
        read(rt, mti, BOARD, OTHER, length)?;
    }
    Ok(())
}

// Both sides of each limit on the length.
pub(crate) fn lengths(rt: &impl Print) -> io::Result<()> {
    for (mti, rest, length) in [
        (0x05B4, OTHER, 0),
        (0x05B4, OTHER, 1),
        (0x05B4, OTHER, 2),
        (0x05B4, OTHER, 15),
        (0x05B4, OTHER, 17),
        (0x0F14, OTHER, 16),
        (0x0F14, OTHER, 272),
        (0x0F14, OTHER, 273),
        (0x0490, OTHER, 7),
        (0x0490, OTHER, 80),
        (0x0490, OTHER, 81),
        (0x0100, BOARD, 8),
        (0x0100, BOARD, 13),
        (0x0100, BOARD, 15),
        (0x0100, OTHER, 14),
        (0x0968, OTHER, 13),
        (0x0968, OTHER, 15),
        (0x0970, OTHER, 9),
    ] {
        read(rt, mti, BOARD, rest, length)?;
    }
    Ok(())
}

// Node IDs 0, 1 and FFFFFFFFFFFF, as a source and as a destination; two wrong things at once.
pub(crate) fn node_ids(rt: &impl Print) -> io::Result<()> {
    for (mti, source, rest, length) in [
        (0x0970, 0, OTHER, 8),
        (0x0970, 1, OTHER, 8),
        (0x0970, 0xFFFF_FFFF_FFFF, OTHER, 8),
        (0x0968, BOARD, 0, 14),
        (0x0968, BOARD, 1, 14),
        (0x0968, BOARD, 0xFFFF_FFFF_FFFF, 14),
        (0x0100, 0, 0, 14),
        (0x0970, 0, OTHER, 9),
        (0x0100, BOARD, OTHER, 13),
        (0x04A4, BOARD, 0, 16),
        (0x04A4, BOARD, 0xFFFF_FFFF_FFFF, 16),
    ] {
        read(rt, mti, source, rest, length)?;
    }
    Ok(())
}

// Addressed messages and a datagram, which are only passed along.
pub(crate) fn passed_along(rt: &impl Print) -> io::Result<()> {
    for (mti, length) in [
        (0x0498, 20),
        (0x0828, 14),
        (0x1C48, 86),
        (0x1C48, 87),
        (0x000C, 22),
    ] {
        read(rt, mti, BOARD, OTHER, length)?;
    }
    Ok(())
}

// What only a writer can be given.
pub(crate) fn writing(rt: &impl Print) -> io::Result<()> {
    let event = Some(EVENT);
    let too_large = 0x1_0000_0000_0000;
    for (mti, source, destination, event, content, room) in [
        (0x05B4, BOARD, None, event, 0, 16),
        (0x05B4, BOARD, None, event, 0, 15),
        (0x05B4, BOARD, None, None, 0, 16),
        (0x05B4, BOARD, Some(OTHER), event, 0, 22),
        (0x0970, BOARD, None, event, 0, 16),
        (0x0968, BOARD, None, None, 0, 14),
        (0x0968, BOARD, Some(OTHER), None, 0, 14),
        (0x0968, BOARD, Some(too_large), None, 0, 14),
        (0x0970, BOARD, Some(0), None, 0, 8),
        (0x0970, too_large, None, None, 0, 8),
        (0x0970, 0, None, None, 0, 8),
        (0x0F15, 0, None, None, 0, 0),
        (0x0100, BOARD, None, None, 6, 14),
        (0x0F14, BOARD, None, event, 256, 272),
        (0x0F14, BOARD, None, event, 256, 271),
        (0x0F14, BOARD, None, event, 257, 300),
        (0x0490, BOARD, None, None, 72, 80),
        (0x0490, BOARD, None, None, 73, 0),
    ] {
        let message = Message {
            mti,
            source,
            destination,
            event,
        };
        write(rt, message, content, room)?;
    }
    Ok(())
}
