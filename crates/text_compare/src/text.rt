// A name or a value compared with the table's text.
ghost use Rattle.std.specs.Prelude.{◌≡◌, ℕ, ◌+◌, ◌-◌, ◌≤◌, length};
ghost use Rattle.memory.specs.Numbers.{number};
ghost use Rattle.memory.specs.Compare.{same_at};

use memory::compare::same;
use memory::number::{bytes_at, u32_at, u64_at};

// The last four bytes of a text that ends at `end`, as one number.
pub fn last_four(b: &[u8], end: usize) -> u32
    requires { (4 ≤ end) × (end ≤ length b.now) }
    ensures { result ≡ number 4 b.now (end - 4) }
{
    u32_at(b, end - 4)
}

// Are the first `W` bytes of `b` and the last, which may overlap them, those from the place `at` on?
fn same_ends<const W: usize>(m: &[u8], at: usize, b: &[u8]) -> bool
    requires { (W ≤ length b.now) × (length b.now ≤ W + W) × (at + length b.now ≤ length m.now) }
    ensures { result ≡ same_at (length b.now) m.now at b.now 0 }
{
    let last = b.len() - W;
    bytes_at::<W>(m, at) == bytes_at::<W>(b, 0)
        && bytes_at::<W>(m, at + last) == bytes_at::<W>(b, last)
}

// Eight bytes or more, by words from the start on: the last stands at the end, and may overlap the one before it.
fn same_long(m: &[u8], at: usize, b: &[u8]) -> bool
    requires { (8 ≤ length b.now) × (at + length b.now ≤ length m.now) }
    ensures { result ≡ same_at (length b.now) m.now at b.now 0 }
{
    let last = b.len() - 8;
    for k in (0..last).step_by(8) {
        if u64_at(m, at + k) != u64_at(b, k) {
            return false;
        }
    }
    u64_at(m, at + last) == u64_at(b, last)
}

// Are the bytes from the place `at` on those of `b`? Most names and values have a few bytes: two words take them whole.
pub fn stands_at(m: &[u8], at: usize, b: &[u8]) -> bool
    requires { at + length b.now ≤ length m.now }
    ensures { result ≡ same_at (length b.now) m.now at b.now 0 }
{
    let n = b.len();
    if n < 4 {
        return same(m, at, b, 0, n);
    }
    if n < 8 {
        return same_ends::<4>(m, at, b);
    }
    if n <= 16 {
        return same_ends::<8>(m, at, b);
    }
    same_long(m, at, b)
}
