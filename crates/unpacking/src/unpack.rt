// Packed strings unpacked: counted, and written.
ghost use Rattle.std.specs.Prelude.{◌≡◌, ℕ, ◌+◌, ◌-◌, ◌^◌, ◌<◌, ◌≤◌, length};
ghost use Rattle.memory.specs.Bytes.{part, overlay};
ghost use Rattle.huffman.specs.Packing.{unpack};
ghost use Rattle.unpacking.specs.Waiting.{size_of, end_of};

use crate::bits::Bits;

// How many bytes a packed string gives before its first fault, and has it none?
// A flag and no `Result`: at a fault too the count says whether the string is too long, which is judged first.
#[derive(Drop)]
pub struct UnpackedSize {
    pub count: usize,
    pub whole: bool,
}

// Counts the bytes of the packed string between two places.
pub fn unpacked_size(s: &[u8], from: usize, to: usize) -> UnpackedSize
    requires { (from ≤ to) × (to ≤ length s.now) × (to < from + 2 ^ 32) }
    ensures { result ≡ size_of (unpack (part s.now from (to - from))) }
{
    let mut b = Bits::new(&s[from..to]);
    // As an `Iterator` of bytes the loop would read the same, `for _ in &mut b`, and three ghost members would say what one clause of `next_byte` says.
    let mut count: usize = 0;
    while let Some(_) = b.next_byte() {
        count += 1;
    }
    UnpackedSize {
        count,
        whole: b.is_padding(),
    }
}

// The place after the bytes that a packed string gives before its first fault, and has it none?
// A flag as in `UnpackedSize`: what was written up to a fault stays, and the place says how much that is.
#[derive(Drop)]
pub struct UnpackedEnd {
    pub next: usize,
    pub whole: bool,
}

// Writes the bytes of the packed string between two places, up to its first fault.
pub fn unpack(s: &[u8], from: usize, to: usize, out: &mut [u8], at: usize) -> UnpackedEnd
    requires from_le_to { (from ≤ to) × (to ≤ length s.now) }
    requires from_in_bounds { at + length (unpack (part s.now from (to - from))).bytes ≤ length out.old }
    ensures value { result ≡ end_of at (unpack (part s.now from (to - from))) }
    ensures out_after { out.new ≡ overlay out.old at (unpack (part s.now from (to - from))).bytes }
{
    let mut b = Bits::new(&s[from..to]);
    // `while let` as in `unpacked_size`.
    let mut next = at;
    while let Some(x) = b.next_byte() {
        out[next] = x;
        next += 1;
    }
    UnpackedEnd {
        next,
        whole: b.is_padding(),
    }
}
