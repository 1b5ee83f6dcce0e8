// What has been read of a line, a byte at a time.
ghost use Rattle.std.specs.Prelude.{◌≡◌, ◌<◌, IfSome};
ghost use Rattle.case_files.specs.Digits.{digit as digit_of};

use crate::Line;

#[derive(Clone, Copy)]
pub(crate) enum Place {
    // In the command or its numbers.
    Words,
    // Behind so many digits of a message.
    Message(usize),
    Unreadable,
}

// Behind a gap the next number begins, and else the last one goes on.
#[derive(Clone, Copy)]
pub(crate) struct Reader {
    pub(crate) place: Place,
    pub(crate) gap: bool,
    pub(crate) name: [u8; 4],
    pub(crate) numbers: [u64; 15],
    pub(crate) count: usize,
    pub(crate) bytes: [u8; 512],
}

impl Reader {
    ghost use Rattle.case_files.specs.Lines.{nothing, turned, in_words, with_letter, with_digit, with_half, unreadable, line_of, with_message};

    pub(crate) fn new() -> Reader
        ensures { result ≡ nothing }
    {
        Reader {
            place: Place::Words,
            gap: false,
            name: [0; 4],
            numbers: [0; 15],
            count: 0,
            bytes: [0; 512],
        }
    }

    pub(crate) fn turn(self, b: u8) -> Reader
        ensures { result ≡ turned self b }
    {
        if b == b' ' {
            return Reader { gap: true, ..self };
        }
        match self.place {
            Place::Words => self.in_words(b),
            Place::Message(digits) => self.with_half(digits, digit(b)),
            Place::Unreadable => self,
        }
    }

    fn in_words(self, b: u8) -> Reader
        ensures { result ≡ in_words self b }
    {
        if b == b':' {
            return Reader {
                place: Place::Message(0),
                ..self
            };
        }
        if self.gap {
            return self.with_digit(self.count, digit(b));
        }
        if self.count == 0 {
            return self.with_letter(b);
        }
        self.with_digit(self.count - 1, digit(b))
    }

    // The first four letters stay.
    fn with_letter(self, b: u8) -> Reader
        ensures { result ≡ with_letter self b }
    {
        if self.name[0] != 0 {
            return self;
        }
        Reader {
            name: [self.name[1], self.name[2], self.name[3], b],
            ..self
        }
    }

    fn with_digit(self, at: usize, digit: Option<u8>) -> Reader
        requires { IfSome digit (λ d. d < 16) }
        ensures { result ≡ with_digit self at digit }
    {
        let Some(d) = digit else {
            return self.unreadable();
        };
        if at >= 15 || self.numbers[at] >= 0x1000_0000_0000_0000 {
            return self.unreadable();
        }
        let mut numbers = self.numbers;
        numbers[at] = numbers[at] * 16 + u64::from(d);
        Reader {
            gap: false,
            numbers,
            count: at + 1,
            ..self
        }
    }

    fn with_half(self, digits: usize, digit: Option<u8>) -> Reader
        requires { IfSome digit (λ d. d < 16) }
        ensures { result ≡ with_half self digits digit }
    {
        let Some(d) = digit else {
            return self.unreadable();
        };
        let at = digits / 2;
        if at >= 512 {
            return self.unreadable();
        }
        let mut bytes = self.bytes;
        bytes[at] = bytes[at] % 16 * 16 + d;
        Reader {
            place: Place::Message(digits + 1),
            bytes,
            ..self
        }
    }

    fn unreadable(self) -> Reader
        ensures { result ≡ unreadable self }
    {
        Reader {
            place: Place::Unreadable,
            ..self
        }
    }

    // Each byte of a message has two digits.
    pub(crate) fn line(self) -> Option<Line>
        ensures { result ≡ line_of self }
    {
        match self.place {
            Place::Words => Some(self.with_message(None)),
            Place::Message(digits) if digits % 2 == 0 => Some(self.with_message(Some(digits / 2))),
            _ => None,
        }
    }

    fn with_message(self, message: Option<usize>) -> Line
        ensures { result ≡ with_message self message }
    {
        let name = self.name;
        let numbers = self.numbers;
        let bytes = self.bytes;
        Line {
            name,
            numbers,
            count: self.count,
            bytes,
            message,
        }
    }
}

// The value of a hexadecimal digit in lower case.
fn digit(b: u8) -> Option<u8>
    ensures value { result ≡ digit_of b }
    ensures upper_bound { IfSome result (λ d. d < 16) }
{
    match b {
        b'0'..=b'9' => Some(b - b'0'),
        b'a'..=b'f' => Some(b - b'a' + 10),
        _ => None,
    }
}
