// Numbers of two, four and eight bytes, the lowest byte first, and bytes at a place, as many as a type says. The compiler makes one load or store of each. The numbers are sums, not
// std's `from_le_bytes`: with that the compiler makes a call of memcpy of the loop in `copying`, and the library calls memmove and memset alone (docs/HOST.md).
ghost use Rattle.std.specs.Prelude.{◌≡◌, ℕ, ◌+◌, ◌≤◌, ◌<◌, length};
ghost use Rattle.memory.specs.Bytes.{part, overlay};
ghost use Rattle.memory.specs.Numbers.{number, number_bytes};

fn wide(x: u8) -> u16
    ensures { (result ≡ x) × (result < 256) }
{
    x as u16
}

pub fn u16_at(s: &[u8], at: usize) -> u16
    requires { at + 2 ≤ length s.now }
    ensures { result ≡ number 2 s.now at }
{
    wide(s[at]) + 256 * wide(s[at + 1])
}

pub fn u32_at(s: &[u8], at: usize) -> u32
    requires { at + 4 ≤ length s.now }
    ensures { result ≡ number 4 s.now at }
{
    (u16_at(s, at) as u32) + 65_536 * (u16_at(s, at + 2) as u32)
}

pub fn u64_at(s: &[u8], at: usize) -> u64
    requires { at + 8 ≤ length s.now }
    ensures { result ≡ number 8 s.now at }
{
    (u32_at(s, at) as u64) + 4_294_967_296 * (u32_at(s, at + 4) as u64)
}

pub fn put_u16(m: &mut [u8], at: usize, v: u16)
    requires { at + 2 ≤ length m.old }
    ensures { m.new ≡ overlay m.old at (number_bytes 2 v) }
{
    m[at] = (v % 256) as u8;
    m[at + 1] = (v / 256 % 256) as u8;
}

pub fn put_u32(m: &mut [u8], at: usize, v: u32)
    requires { at + 4 ≤ length m.old }
    ensures { m.new ≡ overlay m.old at (number_bytes 4 v) }
{
    put_u16(m, at, (v % 65_536) as u16);
    put_u16(m, at + 2, (v / 65_536) as u16);
}

pub fn put_u64(m: &mut [u8], at: usize, v: u64)
    requires { at + 8 ≤ length m.old }
    ensures { m.new ≡ overlay m.old at (number_bytes 8 v) }
{
    put_u32(m, at, (v % 4_294_967_296) as u32);
    put_u32(m, at + 4, (v / 4_294_967_296) as u32);
}

// The `N` bytes from the place `at` on.
pub fn bytes_at<const N: usize>(s: &[u8], at: usize) -> [u8; N]
    requires { at + N ≤ length s.now }
    ensures { result ≡ part s.now at N }
{
    let mut bytes = [0; N];
    bytes.copy_from_slice(&s[at..at + N]);
    bytes
}

// Stores `bytes` from the place `at` on.
pub fn put_bytes<const N: usize>(m: &mut [u8], at: usize, bytes: [u8; N])
    requires { at + N ≤ length m.old }
    ensures { m.new ≡ overlay m.old at bytes.entry }
{
    m[at..at + N].copy_from_slice(&bytes);
}
