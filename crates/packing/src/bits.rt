// Bits in a number of 64: the n lowest are meant, the first of them highest. What stands above them does not count, so bits are taken by a smaller n alone.
ghost use Rattle.std.specs.Prelude.{◌≡◌, ℕ, ◌+◌, ◌^◌, ◌<◌, ◌≤◌, length};
ghost use Rattle.memory.specs.Bytes.{overlay};
ghost use Rattle.huffman.specs.Bits.{bits_of, bytes_of, Pushed};

// The bits of `u` with `size` bits behind them.
pub fn push(u: u64, value: u64, size: u64) -> u64
    requires { (size < 64) × (value < 2 ^ size) }
    ensures { Pushed u size value result }
{
    (u << size) + value
}

// Stores the 32 lowest bits of `v` at the place `at`.
pub fn put_word(m: &mut [u8], at: usize, v: u64)
    requires { at + 4 ≤ length m.old }
    ensures { m.new ≡ overlay m.old at (bytes_of 4 (bits_of 32 v)) }
{
    let bytes = ((v % (1 << 32)) as u32).to_be_bytes();
    m[at..at + 4].copy_from_slice(&bytes);
}
