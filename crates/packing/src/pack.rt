// Bytes packed: each as its code, the codes one after another, padded with ones to whole bytes.
ghost use Rattle.std.specs.Prelude.{◌≡◌, ℕ, ◌+◌, ◌/◌, ◌^◌, ◌<◌, ◌≤◌, ◌++◌, length};
ghost use Rattle.memory.specs.Bytes.{overlay};
ghost use Rattle.huffman.specs.Bits.{bits_of, bytes_of, ones};
ghost use Rattle.huffman.specs.Packing.{packed_size};
ghost use Rattle.packing.specs.Within.{packed_in, PackedOver};

use crate::bits::{push, put_word};
use huffman::code::{code, size};

// How many bytes `s` takes packed.
pub fn packed_size(s: &[u8]) -> usize
    requires { length s.now < 2 ^ 32 }
    ensures { result ≡ packed_size s.now }
{
    let bits: u64 = s.iter().map(|x| size(*x) as u64).sum();
    ((bits + 7) / 8) as usize
}

// Writes `s` packed from the place `at` on, if that ends at the place `end` or before, and answers the place after it. Bits wait in `u` until they are a word. The first word without room ends
// it, and what was written up to there stays.
pub fn pack(s: &[u8], out: &mut [u8], at: usize, end: usize) -> Option<usize>
    requires { end ≤ length out.old }
    ensures value { result ≡ packed_in s.now at end }
    ensures packed_over { PackedOver s.now at end out.old out.new }
{
    if end < at {
        return None;
    }
    let mut u: u64 = 0;
    let mut n: u64 = 0;
    let mut to = at;
    for &x in s {
        let bits = size(x) as u64;
        u = push(u, code(x), bits);
        n += bits;
        if 32 <= n {
            n -= 32;
            if end - to < 4 {
                return None;
            }
            put_word(out, to, u >> n);
            to += 4;
        }
    }
    let rest = ((n + 7) / 8) as usize;
    if end - to < rest {
        return None;
    }
    put_rest(u, n, out, to);
    Some(to + rest)
}

// Writes the `n` bits that are left, padded with ones to whole bytes. These are at most four: the compiler would prepare a loop for many.
fn put_rest(u: u64, n: u64, out: &mut [u8], at: usize)
    requires { (n < 32) × (at + (n + 7) / 8 ≤ length out.old) }
    ensures { out.new ≡ overlay out.old at (bytes_of ((n + 7) / 8) (bits_of n u ++ ones 7)) }
{
    let rest = push(u, 127, 7);
    if n == 0 {
        return;
    }
    out[at] = ((rest >> (n - 1)) % 256) as u8;
    if n <= 8 {
        return;
    }
    out[at + 1] = ((rest >> (n - 9)) % 256) as u8;
    if n <= 16 {
        return;
    }
    out[at + 2] = ((rest >> (n - 17)) % 256) as u8;
    if n <= 24 {
        return;
    }
    out[at + 3] = ((rest >> (n - 25)) % 256) as u8;
}
