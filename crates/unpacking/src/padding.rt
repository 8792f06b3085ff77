// What may stand behind the last code of a packed string.
ghost use Rattle.std.specs.Prelude.{◌≡◌, ◌<◌};
ghost use Rattle.huffman.specs.Packing.{padding};
ghost use Rattle.unpacking.specs.Waiting.{highest};

// Are the `n` highest bits of `w` what may stand behind the last code?
pub fn padded(w: u64, n: u64) -> bool
    requires { n < 64 }
    ensures { result ≡ padding (highest n w) }
{
    if 7 < n {
        return false;
    }
    let full = 1u64 << n;
    (w >> 48 >> (16 - n)) == full - 1
}
