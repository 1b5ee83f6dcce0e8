// The legs that a message is sent to: bit p for leg p.
use std::fmt;

#[derive(Clone, Copy)]
pub(crate) struct Legs(pub(crate) u8);

impl Legs {
    pub(crate) fn has(self, leg: u8) -> bool {
        match self.0.checked_shr(u32::from(leg)) {
            Some(rest) => rest % 2 == 1,
            None => false,
        }
    }
}

impl fmt::Display for Legs {
    fn fmt<W: fmt::Write>(&self, f: &mut fmt::Formatter<W>) -> fmt::Result {
        if self.0 == 0 {
            return write!(f, "to no leg");
        }
        write!(f, "to leg")?;
        for leg in 0..4 {
            if self.has(leg) {
                write!(f, " {leg}")?;
            }
        }
        Ok(())
    }
}
