// Bytes copied inside one slice: moved up and down; and zeros stored.
ghost use Rattle.std.specs.Prelude.{◌≡◌, ℕ, ◌+◌, ◌≤◌, ◌<◌, length, replicate};
ghost use Rattle.memory.specs.Bytes.{overlay, moved};

// Moves the `n` bytes at `from` down to `to`. The parts may overlap: the first byte goes first. The way is known here, so the compiler may make a memmove
// of the loop: `copy_within` tests the way at each call.
pub fn move_down(m: &mut [u8], to: usize, from: usize, n: usize)
    requires { (to ≤ from) × (from + n ≤ length m.old) }
    ensures { m.new ≡ moved m.old to from n }
{
    for i in 0..n {
        m[to + i] = m[from + i];
    }
}

// Moves the `n` bytes at `from` up to `to`. The parts may overlap: the last byte goes first.
pub fn move_up(m: &mut [u8], to: usize, from: usize, n: usize)
    requires { (from ≤ to) × (to + n ≤ length m.old) }
    ensures { m.new ≡ moved m.old to from n }
{
    for i in (0..n).rev() {
        m[to + i] = m[from + i];
    }
}

// Stores `n` zeros from the place `at` on.
pub fn put_zeros(m: &mut [u8], at: usize, n: usize)
    requires { at + n ≤ length m.old }
    ensures { m.new ≡ overlay m.old at (replicate n 0) }
{
    m[at..at + n].fill(0);
}
