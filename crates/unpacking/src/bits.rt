// The bits of a packed string that wait to be read, and the bytes that their codes say.
ghost use Rattle.huffman.specs.Bits.{bits_of, bits};
ghost use Rattle.std.specs.Prelude.{◌≡◌, ℕ, ◌-◌, ◌%◌, ◌^◌, ◌<◌, ◌≤◌, length};

pub use crate::padding::padded;
use long_codes::codes::long_code;
use short_codes::code::short_code;

// The `n` highest bits of `w`, with zeros below them, and then those of `bytes`.
#[derive(Clone, Copy)]
pub struct Bits<'a> {
    pub w: u64,
    pub n: u64,
    pub bytes: &'a [u8],
    ghost few: { n < 64 },
    ghost zeros: { w % 2 ^ (64 - n) ≡ 0 },
}

// Where fewer bits wait in `w`, there is room for four bytes more.
pub const FULL: u64 = 32;

// The shortest code of more than 8 bits has this many.
const LONG_SIZE: u64 = 10;

// Four bytes as one number, the first highest.
fn word(four: &[u8; 4]) -> u64
    ensures { (bits_of 32 result ≡ bits four.now) × (result < 2 ^ 32) }
{
    u32::from_be_bytes(*four) as u64
}

impl<'a> Bits<'a> {
    ghost use Rattle.huffman.specs.Packing.{padding};
    ghost use Rattle.unpacking.specs.Waiting.{highest, waiting, Refilled};
    ghost use Rattle.unpacking.specs.Turns.{TakenOff, Turn};

    // All bits of these bytes.
    pub fn new(bytes: &'a [u8]) -> Bits<'a>
        ensures { waiting result ≡ bits bytes.now }
    {
        let none = Bits { w: 0, n: 0, bytes };
        none.refill()
    }

    // The same bits, at least 32 of them in `w` while there are bytes.
    pub fn refill(self) -> Bits<'a>
        ensures { Refilled self.entry result }
    {
        if FULL <= self.n {
            return self;
        }
        let Some((four, bytes)) = self.bytes.split_first_chunk::<4>() else {
            return self.refill_last();
        };
        Bits {
            w: self.w + (word(four) << (32 - self.n)),
            n: self.n + 32,
            bytes,
        }
    }

    // The last bytes, at most three.
    fn refill_last(self) -> Bits<'a>
        requires { (self.n < 32) × (length self.bytes.now < 4) }
        ensures { Refilled self.entry result }
    {
        let mut w = self.w;
        let mut n = self.n;
        for &x in self.bytes {
            w += (x as u64) << (56 - n);
            n += 8;
        }
        Bits { w, n, bytes: &[] }
    }

    // The bits behind a code of this size.
    #[inline(always)]
    fn behind(self, size: u8) -> Bits<'a>
        requires { size ≤ self.n }
        ensures { TakenOff self.entry size result }
    {
        Bits {
            w: self.w << size as u64,
            n: self.n - size as u64,
            bytes: self.bytes,
        }
    }

    // The next byte, whose code is taken off the bits, if they begin with one. Bits are refilled only where those that wait do not hold a short code. A call for
    // each byte would cost more than its code.
    #[inline(always)]
    pub fn next_byte(&mut self) -> Option<u8>
        ensures { Turn self.old self.new result }
    {
        let mut c = short_code((self.w >> 56) as u8);
        if self.n < c.size as u64 {
            *self = self.refill();
            c = short_code((self.w >> 56) as u8);
            if self.n < c.size as u64 {
                if self.n < LONG_SIZE {
                    return None;
                }
                c = long_code((self.w >> 32) as u32);
                if self.n < c.size as u64 {
                    return None;
                }
            }
        }
        *self = self.behind(c.size);
        Some(c.byte)
    }

    // Are the bits that wait in `w` what may stand behind the last code?
    pub fn is_padding(self) -> bool
        ensures { result ≡ padding (highest self.entry.n self.entry.w) }
    {
        padded(self.w, self.n)
    }
}
