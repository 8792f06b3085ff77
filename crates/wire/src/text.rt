// Strings on the wire: an H bit, a length with a prefix of seven bits, then that many bytes, which are packed where H is set.
ghost use Rattle.std.specs.Prelude.{◌≡◌, true, false, ℕ, ◌+◌, ◌≤◌, length};
ghost use Rattle.memory.specs.Bytes.{overlay};
ghost use Rattle.wire.specs.Text.{InString, string_length, string_bytes, plain_place, read_string, string_after, wire_size, value_limit};

use copying::copy::copy;
use integers::answer::{Read, Refusal};
use integers::integer::WireInt;
use packing::pack::packed_size;
use unpacking::unpack::{unpack, unpacked_size};

// The most bytes that a name and a value have.
pub const NAME_LIMIT: usize = 255;

pub const VALUE_LIMIT: usize = 2_047;

// A byte takes at most this many packed.
const PACKED_MOST: usize = 4;

// The H bit, in the first byte of a string.
pub const H_BIT: u8 = 128;

// Where a string stands: its first byte after the length, how many bytes it takes there, whether these are packed, and how many bytes it has.
// Its length and its bytes are reached through the two methods alone.
#[derive(Clone, Copy)]
pub struct StringPlace {
    pub start: usize,
    pub size: usize,
    pub packed: bool,
    pub length: usize,
}

impl StringPlace {
    // The place of a plain string.
    pub fn plain(start: usize, size: usize) -> StringPlace
        ensures { result ≡ plain_place start size }
    {
        StringPlace {
            start,
            size,
            packed: false,
            length: size,
        }
    }

    // How many bytes the string has.
    pub fn length(self, s: &[u8]) -> usize
        ensures { result ≡ string_length s.now self }
    {
        self.length
    }

    // Copies the string's bytes into `out` from the place `at` on, and answers the place after them.
    pub fn copy(self, s: &[u8], out: &mut [u8], at: usize) -> usize
        requires in_string { InString s.now self }
        requires self_in_bounds { at + string_length s.now self ≤ length out.old }
        ensures value { result ≡ at + string_length s.now self }
        ensures out_after { out.new ≡ overlay out.old at (string_bytes s.now self) }
    {
        let start = self.start;
        let end = start + self.size;
        if self.packed {
            return unpack(s, start, end, out, at).next;
        }
        copy(&s[start..end], out, at)
    }
}

// A packed string, after its length and the place after it.
fn read_packed(s: &[u8], limit: usize, size: usize, start: usize) -> Read<StringPlace>
    requires { (limit ≤ value_limit) × (start ≤ length s.now) }
    ensures { result ≡ string_after true s.now limit size start }
{
    if PACKED_MOST * limit < size {
        return Err(Refusal::TooLong);
    }
    if s.len() - start < size {
        return Err(Refusal::Truncated);
    }
    let next = start + size;
    let found = unpacked_size(s, start, next);
    let length = found.count;
    if limit < length {
        return Err(Refusal::TooLong);
    }
    if !found.whole {
        return Err(Refusal::BadPacking);
    }
    Ok((
        StringPlace {
            start,
            size,
            packed: true,
            length,
        },
        next,
    ))
}

// A plain string, likewise.
fn read_plain(s: &[u8], limit: usize, size: usize, start: usize) -> Read<StringPlace>
    requires { start ≤ length s.now }
    ensures { result ≡ string_after false s.now limit size start }
{
    if limit < size {
        return Err(Refusal::TooLong);
    }
    if s.len() - start < size {
        return Err(Refusal::Truncated);
    }
    Ok((StringPlace::plain(start, size), start + size))
}

// The string of at most `limit` bytes at the place `at`.
pub fn read_string(s: &[u8], at: usize, limit: usize) -> Read<StringPlace>
    requires { limit ≤ value_limit }
    ensures { result ≡ read_string s.now at limit }
{
    if s.len() <= at {
        return Err(Refusal::Truncated);
    }
    let first = s[at];
    let r = WireInt::read(s, at, WireInt::PREFIX7);
    let Ok((n, start)) = r else {
        return Err(r.unwrap_err());
    };
    if H_BIT <= first {
        return read_packed(s, limit, n.value as usize, start);
    }
    read_plain(s, limit, n.value as usize, start)
}

// How many bytes a string takes on the wire behind its length: packed exactly where that is strictly shorter.
pub fn wire_size(src: &[u8]) -> usize
    requires { length src.now ≤ value_limit }
    ensures { (result ≡ wire_size src.now) × (result ≤ value_limit) }
{
    let n = packed_size(src);
    if n < src.len() {
        return n;
    }
    src.len()
}
