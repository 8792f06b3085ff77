// Strings and literals of a block, each written in the host's list form as it is read. Each answers the places after it in the block and in the list. Or it
// is not for this pass, and what stands in the list from its place on means nothing.
ghost use Rattle.std.specs.Prelude.{◌≡◌, List, ℕ, ◌+◌, ◌<◌, ◌≤◌, length, get_or};
ghost use Rattle.decoder_literals.specs.Taking.{StringTaken, FieldTaken};

use blocks::read::flag_of;
use copied_fields::write::write_short;
use copying::copy::copy;
use integers::byte::wide_size;
use integers::integer::WireInt;
use short_forms::short::short_literal;
use unpacking::unpack::unpack;

// The values that the prefix of a string's length has room for, and that of a name's index.
const LENGTH_SPAN: usize = 1 << WireInt::PREFIX7;

const NAME_SPAN: u8 = 1 << WireInt::PREFIX6;

// A prefix of all ones, after which the length goes on. A string of fewer bytes has room in so many with its length in the list.
const LENGTH_ONES: usize = WireInt::ONES7 as usize;

// A packed string of as many bytes may give more than fit a length of one byte; one of fewer gives at most 126, since no code is shorter than five bits.
const PACKED_LONG: usize = 80;

// A packed string, whose length takes one byte on the wire.
fn take_packed(
    s: &[u8],
    at: usize,
    size: usize,
    out: &mut [u8],
    to: usize,
) -> Option<(usize, usize)>
    requires { (at + 1 + size ≤ length s.now) × (get_or s.now at 0 ≡ 128 + size) × (to + 127 ≤ length out.old) }
    ensures { StringTaken s.now at out.old out.new to result }
{
    if PACKED_LONG <= size {
        return None;
    }
    let start = at + 1;
    let end = start + size;
    let u = unpack(s, start, end, out, to + 1);
    if !u.whole {
        return None;
    }
    let after = u.next;
    out[to] = (after - (to + 1)) as u8;
    Some((end, after))
}

// The string at the place `at`, if its length takes one byte on the wire and in the list.
pub fn take_string(s: &[u8], at: usize, out: &mut [u8], to: usize) -> Option<(usize, usize)>
    requires { to ≤ length out.old }
    ensures { StringTaken s.now at out.old out.new to result }
{
    if s.len() <= at {
        return None;
    }
    let first = wide_size(s[at]);
    let size = first % LENGTH_SPAN;
    let start = at + 1;
    if s.len() - start < size {
        return None;
    }
    if out.len() - to < LENGTH_ONES {
        return None;
    }
    if LENGTH_ONES < first {
        return take_packed(s, at, size, out, to);
    }
    if first == LENGTH_ONES {
        return None;
    }
    out[to] = s[at];
    let end = start + size;
    Some((end, copy(&s[start..end], out, to + 1)))
}

// The literal at the place `at`, if its name is a string.
fn take_strings(s: &[u8], at: usize, out: &mut [u8], to: usize) -> Option<(usize, usize)>
    requires { (at < length s.now) × (get_or s.now at 0 < 128) × (to ≤ length out.old) }
    ensures { (m : List ℕ) → FieldTaken m s.now at out.old out.new to result }
{
    if s[at] % NAME_SPAN != 0 {
        return None;
    }
    if out.len() <= to {
        return None;
    }
    out[to] = flag_of(s[at]);
    let n = take_string(s, at + 1, out, to + 1);
    let Some((next, after)) = n else {
        return None;
    };
    take_string(s, next, out, after)
}

// The same. One whose strings are plain is copied whole.
pub fn take_literal(s: &[u8], at: usize, out: &mut [u8], to: usize) -> Option<(usize, usize)>
    requires { (at < length s.now) × (get_or s.now at 0 < 128) × (to ≤ length out.old) }
    ensures { (m : List ℕ) → FieldTaken m s.now at out.old out.new to result }
{
    let l = short_literal(s, at);
    let Some(next) = l else {
        return take_strings(s, at, out, to);
    };
    if out.len() - to < next - at {
        return None;
    }
    Some((next, write_short(s, at, next, out, to)))
}
