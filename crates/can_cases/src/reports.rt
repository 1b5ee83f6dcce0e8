// A report that was handed out, as a message and as frames.
use crate::legs::Leg;
use can::{Gathered, Joined};
use message::Message;
use std::fmt;

// Bytes in upper-case hexadecimal.
#[derive(Clone, Copy)]
pub(crate) struct Hex<'a>(pub(crate) &'a [u8]);

impl<'a> fmt::Display for Hex<'a> {
    fn fmt<W: fmt::Write>(&self, f: &mut fmt::Formatter<W>) -> fmt::Result {
        for byte in self.0 {
            write!(f, "{byte:02X}")?;
        }
        Ok(())
    }
}

#[derive(Clone, Copy)]
pub(crate) struct Report {
    mti: u16,
    gathered: Gathered,
}

impl Report {
    pub(crate) fn handed_out(joined: Joined) -> Option<Report> {
        if joined.mti == 0 {
            return None;
        }
        Some(Report {
            mti: joined.mti,
            gathered: joined.message,
        })
    }

    fn message(&self) -> Message {
        Message {
            mti: self.mti,
            source: self.gathered.sender,
            destination: None,
            event: Some(self.gathered.event),
        }
    }

    fn payload(&self) -> &[u8] {
        &self.gathered.payload[..self.gathered.length.min(256)]
    }

    // Writes the message, and answers how many bytes it took.
    pub(crate) fn write(&self, out: &mut [u8]) -> usize {
        message::write(self.message(), self.payload(), out).unwrap_or(0)
    }

    // The same of its frames on a leg.
    pub(crate) fn split(&self, leg: Leg, out: &mut [u8]) -> usize {
        can::split(
            &leg.aliases,
            &leg.nodes,
            self.message(),
            self.payload(),
            out,
        )
        .unwrap_or(0)
    }
}
