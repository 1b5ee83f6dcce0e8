// Numbers of two, six and eight bytes, of which the compiler makes whole loads and stores.
ghost use Rattle.std.specs.Prelude.{◌≡◌, ◌+◌, ◌*◌, ◌≤◌, ◌<◌, length};
ghost use Rattle.numbers.specs.Numbers.{number_at, bytes_of, pasted};

// Each is the sum of shorter ones, low bytes first, and one load: of u64::from_be_bytes, or a loop over the pairs, the compiler makes a load for each byte.
pub(crate) fn two(bytes: &[u8], at: usize) -> u64
    requires { at + 2 ≤ length bytes.now }
    ensures value { result ≡ number_at bytes.now at 2 }
    ensures upper_bound { result < 0x1_0000 }
{
    u64::from(bytes[at + 1]) + u64::from(bytes[at]) * 0x100
}

pub(crate) fn six(bytes: &[u8], at: usize) -> u64
    requires { at + 6 ≤ length bytes.now }
    ensures value { result ≡ number_at bytes.now at 6 }
    ensures upper_bound { result < 0x1_0000_0000_0000 }
{
    two(bytes, at + 4) + two(bytes, at + 2) * 0x1_0000 + two(bytes, at) * 0x1_0000_0000
}

pub(crate) fn eight(bytes: &[u8], at: usize) -> u64
    requires { at + 8 ≤ length bytes.now }
    ensures { result ≡ number_at bytes.now at 8 }
{
    six(bytes, at + 2) + two(bytes, at) * 0x1_0000_0000_0000
}

// The low bytes of a number, a pair at a time.
pub(crate) fn put_pairs<const PAIRS: usize>(n: u64, at: usize, out: &mut [u8])
    requires { at + 2 * PAIRS ≤ length out.old }
    ensures { out.new ≡ pasted at (bytes_of (2 * PAIRS) n) out.old }
{
    let mut rest = n;
    for i in (0..PAIRS).rev() {
        put_pair(rest, at + 2 * i, out);
        rest /= 0x1_0000;
    }
}

fn put_pair(n: u64, at: usize, out: &mut [u8])
    requires { at + 2 ≤ length out.old }
    ensures { out.new ≡ pasted at (bytes_of 2 n) out.old }
{
    out[at + 1] = (n % 0x100) as u8;
    out[at] = (n / 0x100 % 0x100) as u8;
}
