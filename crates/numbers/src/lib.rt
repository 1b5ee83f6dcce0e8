// Numbers in bytes, high byte first.
#![tactic(auto)]

mod fixed;

ghost use Rattle.std.specs.Prelude.{◌≡◌, ◌%◌, ◌^◌, ◌≤◌, length};
ghost use Rattle.numbers.specs.Numbers.{number_in, bytes_of, number_at, at_most_eight, number_put};

// The number that the bytes spell; of more than 8 bytes, its low 64 bits.
pub fn read(bytes: &[u8]) -> u64
    ensures { result ≡ number_in bytes.now % 2 ^ 64 }
{
    let mut n = 0;
    for byte in bytes {
        n = n % 0x0100_0000_0000_0000 * 256 + u64::from(*byte);
    }
    n
}

// Fills out with the low bytes of a number, as many as there is room for.
pub fn write(n: u64, out: &mut [u8])
    ensures { out.new ≡ bytes_of (length out.old) n }
{
    let mut rest = n;
    for i in (0..out.len()).rev() {
        out[i] = (rest % 256) as u8;
        rest /= 256;
    }
}

// The number in so many bytes from a place on, eight at most; past the end there are none.
pub fn read_at(bytes: &[u8], at: usize, width: usize) -> u64
    ensures { result ≡ number_at bytes.now at (at_most_eight width) }
{
    if bytes.len() < at {
        return 0;
    }
    if width <= bytes.len() - at {
        if width == 2 {
            return fixed::two(bytes, at);
        }
        if width == 6 {
            return fixed::six(bytes, at);
        }
        if width == 8 {
            return fixed::eight(bytes, at);
        }
    }
    by_bytes(bytes, at, width)
}

// The same byte by byte, for any width and any bytes that are left.
fn by_bytes(bytes: &[u8], at: usize, width: usize) -> u64
    requires { at ≤ length bytes.now }
    ensures { result ≡ number_at bytes.now at (at_most_eight width) }
{
    let most = at_most_eight(width);
    if bytes.len() - at <= most {
        return read(&bytes[at..]);
    }
    read(&bytes[at..at + most])
}

fn at_most_eight(width: usize) -> usize
    ensures value { result ≡ at_most_eight width }
    ensures upper_bound { result ≤ 8 }
{
    if width <= 8 { width } else { 8 }
}

// Puts the low bytes of a number in from a place on, where there is room for all of them.
pub fn write_at(n: u64, width: usize, at: usize, out: &mut [u8])
    ensures { out.new ≡ number_put n width at out.old }
{
    if out.len() < at {
        return;
    }
    if out.len() - at < width {
        return;
    }
    if width == 8 {
        fixed::put_pairs::<4>(n, at, out);
        return;
    }
    if width == 6 {
        fixed::put_pairs::<3>(n, at, out);
        return;
    }
    if width == 2 {
        fixed::put_pairs::<1>(n, at, out);
        return;
    }
    write(n, &mut out[at..at + width]);
}
