// Numbers on the wire: the prefix integers of RFC 7541, 5.1, with at most four groups.
ghost use Rattle.std.specs.Prelude.{◌≡◌, ℕ, ◌+◌, ◌*◌, ◌^◌, ◌<◌, ◌≤◌, length};
ghost use Rattle.memory.specs.Bytes.{overlay};
ghost use Rattle.integers.specs.Integer.{read_int, finished, groups, largest, short_int_at, int_wire, group_wire};

use crate::answer::{Read, Refusal};
use crate::byte::wide;

// A number that a prefix integer can say.
#[derive(Drop)]
pub struct WireInt {
    pub value: u32,
}

fn power(width: u32) -> u32
    requires { width ≤ 8 }
    ensures { (result ≡ 2 ^ width) × (1 ≤ result) × (result ≤ 256) }
{
    1u32 << width
}

impl WireInt {
    // The three prefix widths of the draft's places. Numbers and no type of their own: `vectors` reads and writes with each width from 1 to 8.
    pub const PREFIX6: u32 = 6;

    pub const PREFIX7: u32 = 7;

    pub const PREFIX8: u32 = 8;

    // A prefix of all ones, after which groups follow: the first value that takes more than one byte.
    pub const ONES6: u32 = (1 << Self::PREFIX6) - 1;

    pub const ONES7: u32 = (1 << Self::PREFIX7) - 1;

    pub const ONES8: u32 = (1 << Self::PREFIX8) - 1;

    // The values of a group: a byte from here on says that another follows.
    pub const GROUP: u32 = 128;

    pub const LARGEST: u32 = 134_217_727;

    pub const GROUPS: u32 = 4;

    pub fn new(value: u32) -> Self
        requires { value ≤ largest }
        ensures { result.value ≡ value }
    {
        Self { value }
    }

    // The integer at the place `at` whose prefix is the low `width` bits of the byte there.
    pub fn read(s: &[u8], at: usize, width: u32) -> Read<WireInt>
        requires { (1 ≤ width) × (width ≤ 8) }
        ensures { result ≡ read_int width s.now at }
    {
        if s.len() <= at {
            return Err(Refusal::Truncated);
        }
        let full = power(width);
        let first = wide(s[at]) % full;
        let next = at + 1;
        if first < full - 1 {
            return Ok((Self::new(first), next));
        }
        Self::read_groups(s, next, first)
    }

    // The same integer, if it takes one byte or two. Most do, so whoever reads many looks for these first.
    pub fn short(s: &[u8], at: usize, width: u32) -> Option<(WireInt, usize)>
        requires { (1 ≤ width) × (width ≤ 8) }
        ensures { result ≡ short_int_at width s.now at }
    {
        if s.len() <= at {
            return None;
        }
        let full = power(width);
        let first = wide(s[at]) % full;
        let next = at + 1;
        if first < full - 1 {
            return Some((Self::new(first), next));
        }
        if s.len() <= next {
            return None;
        }
        let group = wide(s[next]);
        if Self::GROUP <= group {
            return None;
        }
        Some((Self::new(first + group), next + 1))
    }

    // An integer at its end, the place `next`: its last group says `group` and weighs `weight`, and the first group weighs 1.
    fn finish(value: u32, next: usize, group: u32, weight: u32) -> Read<WireInt>
        ensures { result ≡ finished group weight value next }
    {
        if Self::LARGEST < value {
            return Err(Refusal::TooLarge);
        }
        if group == 0 && 1 < weight {
            return Err(Refusal::Padded);
        }
        Ok((Self::new(value), next))
    }

    // The groups from the place `at` on, above the prefix's value.
    fn read_groups(s: &[u8], at: usize, first: u32) -> Read<WireInt>
        requires { (first ≤ 255) × (at ≤ length s.now) }
        ensures { result ≡ groups 4 s.now at first 1 }
    {
        let mut value = first;
        let mut weight: u32 = 1;
        for next in at..at + Self::GROUPS as usize {
            if s.len() <= next {
                return Err(Refusal::Truncated);
            }
            let b = wide(s[next]);
            value += b % Self::GROUP * weight;
            if b < Self::GROUP {
                return Self::finish(value, next + 1, b, weight);
            }
            weight *= Self::GROUP;
        }
        Err(Refusal::TooLarge)
    }

    // Writes the number at the place `at`, in the fewest bytes, below the bits `top` of its first byte.
    // It answers the place after it.
    pub fn write(self, out: &mut [u8], at: usize, width: u32, top: u32) -> usize
        requires width_bound { (width ≤ 8) × (top + 2 ^ width ≤ 256) }
        requires value_le_largest { self.value ≤ largest }
        requires value_in_bounds { at + length (int_wire width top self.value) ≤ length out.old }
        ensures value { result ≡ at + length (int_wire width top self.value) }
        ensures out_after { out.new ≡ overlay out.old at (int_wire width top self.value) }
    {
        let value = self.value;
        let full = power(width);
        if value < full - 1 {
            out[at] = (top + value) as u8;
            return at + 1;
        }
        out[at] = (top + (full - 1)) as u8;
        Self::write_groups(value - (full - 1), out, at + 1)
    }

    // Writes `rest` in groups of seven bits, low group first, from the place `at` on, and answers the place after them.
    pub fn write_groups(rest: u32, out: &mut [u8], at: usize) -> usize
        requires rest_bound { rest < 128 ^ 4 }
        requires rest_in_bounds { at + length (group_wire 3 rest) ≤ length out.old }
        ensures value { result ≡ at + length (group_wire 3 rest) }
        ensures out_after { out.new ≡ overlay out.old at (group_wire 3 rest) }
    {
        // No step is counted, so `for` has none to take: what is left says when it ends.
        let mut left = rest;
        let mut next = at;
        while Self::GROUP <= left {
            out[next] = (left % Self::GROUP + Self::GROUP) as u8;
            left = left / Self::GROUP;
            next += 1;
        }
        out[next] = left as u8;
        next + 1
    }
}
