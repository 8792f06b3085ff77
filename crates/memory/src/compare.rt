// Parts compared with each other, and with zeros, by words of eight bytes, and what is left of them by bytes.
ghost use Rattle.std.specs.Prelude.{◌≡◌, ℕ, ◌+◌, ◌≤◌, length};
ghost use Rattle.memory.specs.Compare.{same_at, zeros_at};

use crate::number::u64_at;

// The bytes of a word.
const WORD: usize = 8;

// Are the `n` bytes of `a` from the place `i` on those of `b` from the place `j` on? By words of eight, then by the bytes that are left: `==` of slices calls bcmp, and the
// library calls memmove and memset alone (docs/HOST.md).
pub fn same(a: &[u8], i: usize, b: &[u8], j: usize, n: usize) -> bool
    requires { (i + n ≤ length a.now) × (j + n ≤ length b.now) }
    ensures { result ≡ same_at n a.now i b.now j }
{
    let words = n / WORD;
    for k in 0..words {
        if u64_at(a, i + WORD * k) != u64_at(b, j + WORD * k) {
            return false;
        }
    }
    same_bytes(a, i + WORD * words, b, j + WORD * words, n - WORD * words)
}

// The same, byte by byte.
fn same_bytes(a: &[u8], i: usize, b: &[u8], j: usize, n: usize) -> bool
    requires { (i + n ≤ length a.now) × (j + n ≤ length b.now) }
    ensures { result ≡ same_at n a.now i b.now j }
{
    for k in 0..n {
        if a[i + k] != b[j + k] {
            return false;
        }
    }
    true
}

// Are the `n` bytes from the place `at` on all 0? By words of eight, with no way out, so that the compiler joins them; then the bytes that are left. No
// `as_chunks`: with it and `all` 32 bytes, which every delete of a table has twice, take more.
pub fn zeros(s: &[u8], at: usize, n: usize) -> bool
    requires { at + n ≤ length s.now }
    ensures { result ≡ zeros_at n s.now at }
{
    let words = n / WORD;
    let mut ok = true;
    for k in 0..words {
        ok = ok & (u64_at(s, at + WORD * k) == 0);
    }
    ok && s[at + WORD * words..at + n].iter().all(|byte| *byte == 0)
}
