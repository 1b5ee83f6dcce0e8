// Text put into a lent buffer from a place on, as much of it as fits.
// A page also says how many bytes of the text are left out first, so that a long text can be had in parts.
#![tactic(auto)]

ghost use Rattle.std.specs.Prelude.{◌≡◌, [], ◌∷◌, ◌<◌};
ghost use Rattle.text.specs.Text.{wrote, hex_digit, decimal, hex_of, or_dash};

#[derive(Drop)]
pub struct Page<'a> {
    pub skip: usize,
    pub at: usize,
    pub text: &'a mut [u8],
}

impl<'a> Page<'a> {
    // The bytes of a piece.
    pub fn put(&mut self, piece: &[u8])
        ensures { self.new ≡ wrote self.old piece.now }
    {
        self.stay_within();
        for b in piece {
            self.put_byte(*b);
        }
    }

    // A number in decimal, without leading zeros.
    pub fn put_decimal(&mut self, n: u64)
        ensures { self.new ≡ wrote self.old (decimal n) }
    {
        self.stay_within();
        if n < 10 {
            self.put_byte(48 + n as u8);
            return;
        }
        let mut next: u64 = 10_000_000_000_000_000_000;
        for w in (1..20u32).rev() {
            let place = next;
            next /= 10;
            if place <= n {
                self.put_byte(48 + (n / place % 10) as u8);
            }
        }
        self.put_byte(48 + (n % 10) as u8);
    }

    // Bytes in upper-case hexadecimal.
    pub fn put_hex(&mut self, bytes: &[u8])
        ensures { self.new ≡ wrote self.old (hex_of bytes.now) }
    {
        self.stay_within();
        for b in bytes {
            self.put_byte(hex_digit(b / 16));
            self.put_byte(hex_digit(b % 16));
        }
    }

    // The same, and a dash where there are none.
    pub fn put_hex_or_dash(&mut self, bytes: &[u8])
        ensures { self.new ≡ wrote self.old (or_dash (hex_of bytes.now)) }
    {
        if bytes.is_empty() {
            self.put(b"-");
        } else {
            self.put_hex(bytes);
        }
    }

    // A place past the end is the end.
    fn stay_within(&mut self)
        ensures { self.new ≡ wrote self.old [] }
    {
        self.at = self.at.min(self.text.len());
    }

    fn put_byte(&mut self, b: u8)
        ensures { self.new ≡ wrote self.old (b ∷ []) }
    {
        self.stay_within();
        if 0 < self.skip {
            self.skip -= 1;
        } else if self.at < self.text.len() {
            self.text[self.at] = b;
            self.at += 1;
        }
    }
}

fn hex_digit(d: u8) -> u8
    requires { d < 16 }
    ensures { result ≡ hex_digit d }
{
    if d < 10 { 48 + d } else { 55 + d }
}
