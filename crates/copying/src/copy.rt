// Bytes copied from slice to slice.
ghost use Rattle.std.specs.Prelude.{◌≡◌, ℕ, ◌+◌, ◌≤◌, ◌<◌, length};
ghost use Rattle.memory.specs.Bytes.{part, overlay};

use memory::number::{put_u32, put_u64, u32_at, u64_at};

// Copies `src` into `out` from the place `at` on, and answers the place after it. It goes by words, and the last word may overlap the one before it:
// most names and values have a few bytes, and two words take them whole. std's `copy_from_slice` would call memcpy, and the library calls memmove and memset
// and nothing else (docs/HOST.md).
pub fn copy(src: &[u8], out: &mut [u8], at: usize) -> usize
    requires { at + length src.now ≤ length out.old }
    ensures value { result ≡ at + length src.now }
    ensures out_after { out.new ≡ overlay out.old at src.now }
{
    let n = src.len();
    if n < 8 {
        copy_short(src, out, at);
    } else if n <= 16 {
        copy_eight(src, 0, out, at);
        copy_eight(src, n - 8, out, at);
    } else {
        copy_long(src, out, at);
    }
    at + n
}

// The same for more than 16 bytes.
fn copy_long(src: &[u8], out: &mut [u8], at: usize)
    requires { (16 < length src.now) × (at + length src.now ≤ length out.old) }
    ensures { out.new ≡ overlay out.old at src.now }
{
    let n = src.len();
    let last = n - 8;
    for k in 0..(n - 1) / 8 {
        copy_eight(src, 8 * k, out, at);
    }
    copy_eight(src, last, out, at);
}

// The same for at most 7 bytes: by two words of four, or by three bytes.
fn copy_short(src: &[u8], out: &mut [u8], at: usize)
    requires { (length src.now < 8) × (at + length src.now ≤ length out.old) }
    ensures { out.new ≡ overlay out.old at src.now }
{
    let n = src.len();
    if 4 <= n {
        copy_four(src, 0, out, at);
        copy_four(src, n - 4, out, at);
        return;
    }
    if 0 < n {
        copy_few(src, out, at);
    }
}

// One to three bytes: the first, the middle and the last, which may be the same.
fn copy_few(src: &[u8], out: &mut [u8], at: usize)
    requires { (0 < length src.now) × (length src.now < 4) × (at + length src.now ≤ length out.old) }
    ensures { out.new ≡ overlay out.old at src.now }
{
    let middle = src.len() / 2;
    let last = src.len() - 1;
    out[at] = src[0];
    out[at + middle] = src[middle];
    out[at + last] = src[last];
}

// Copies the eight bytes at the place `i` of `src` to the place `at + i` of `out`. It and `copy_four` are two functions: one with the width as a const parameter
// takes slices of the width, and with their pointers a warm block of 8 fields took 1,093 instructions, where 1,066 are allowed.
fn copy_eight(src: &[u8], i: usize, out: &mut [u8], at: usize)
    requires { (i + 8 ≤ length src.now) × (at + i + 8 ≤ length out.old) }
    ensures { out.new ≡ overlay out.old (at + i) (part src.now i 8) }
{
    put_u64(out, at + i, u64_at(src, i));
}

// Copies the four bytes at the place `i` of `src` to the place `at + i` of `out`.
fn copy_four(src: &[u8], i: usize, out: &mut [u8], at: usize)
    requires { (i + 4 ≤ length src.now) × (at + i + 4 ≤ length out.old) }
    ensures { out.new ≡ overlay out.old (at + i) (part src.now i 4) }
{
    put_u32(out, at + i, u32_at(src, i));
}
