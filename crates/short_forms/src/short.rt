// Short representations: an index takes one byte or two, and strings are plain with a length of one byte. The passes over a block look for these first.
ghost use Rattle.std.specs.Prelude.{◌≡◌, ◌<◌, ◌≤◌, length, get_or};
ghost use Rattle.blocks.specs.Reading.{read_representation};
ghost use Rattle.short_forms.specs.Short.{short_length, short_index_at, short_literal_at, short_named_at};

use blocks::read::{INDEXED, RepresentationPlace, flag_of, read_literal};
use integers::answer::Read;
use integers::byte::wide;
use integers::integer::WireInt;
use integers::number::TableIndex;
use short_strings::short::short_string;
use wire::name::NamePlace;
use wire::text::StringPlace;

// The values of a name's index that its prefix has room for.
const NAME_SPAN: u8 = 1 << WireInt::PREFIX6;

// The bytes of a literal beside its strings: the name's index, and both lengths.
const LITERAL_BYTES: usize = 3;

// The length of a string, if it takes this byte.
fn short_length(b: u8) -> Option<usize>
    ensures { result ≡ short_length b }
{
    let n = wide(b);
    if WireInt::ONES7 <= n {
        return None;
    }
    Some(n as usize)
}

// The index of the indexed representation at the place `at` and the place after it, if it takes one byte. Its prefix is taken apart here, since this is met
// most of all (docs/DECISIONS.md).
pub fn short_index(s: &[u8], at: usize) -> Option<(TableIndex, usize)>
    requires { (at < length s.now) × (128 ≤ get_or s.now at 0) }
    ensures { result ≡ short_index_at s.now at }
{
    let value = wide(s[at] - INDEXED);
    if value == 0 {
        return None;
    }
    if value == WireInt::ONES7 {
        return None;
    }
    Some((TableIndex::new(value), at + 1))
}

// The place after the literal at the place `at`, if its name is a string. One test of the bytes that are left serves both of a string's, so `short_string` is not asked.
pub fn short_literal(s: &[u8], at: usize) -> Option<usize>
    requires { at < length s.now }
    ensures { result ≡ short_literal_at s.now at }
{
    if s[at] % NAME_SPAN != 0 {
        return None;
    }
    let left = s.len() - at;
    if left < LITERAL_BYTES {
        return None;
    }
    let Some(name) = short_length(s[at + 1]) else {
        return None;
    };
    if left - LITERAL_BYTES < name {
        return None;
    }
    let Some(value) = short_length(s[at + 2 + name]) else {
        return None;
    };
    if left - LITERAL_BYTES - name < value {
        return None;
    }
    Some(at + LITERAL_BYTES + name + value)
}

// The index, the value and the place after the literal at the place `at`, if its name is an entry's.
pub fn short_named(s: &[u8], at: usize) -> Option<(TableIndex, StringPlace, usize)>
    ensures { result ≡ short_named_at s.now at }
{
    let r = WireInt::short(s, at, WireInt::PREFIX6);
    let Some((n, after)) = r else {
        return None;
    };
    let value = n.value;
    if value == 0 {
        return None;
    }
    let v = short_string(s, after);
    let Some((place, next)) = v else {
        return None;
    };
    Some((TableIndex::new(value), place, next))
}

// The literal at the place `at`: the general reader, after a short one whose name is an entry's.
pub fn read_literal_at(s: &[u8], at: usize) -> Read<RepresentationPlace>
    requires { (at < length s.now) × (get_or s.now at 0 < 128) }
    ensures { result ≡ read_representation s.now at }
{
    let n = short_named(s, at);
    let Some((index, value, next)) = n else {
        return read_literal(s, at);
    };
    let flag = flag_of(s[at]);
    let place = RepresentationPlace::Literal(flag, NamePlace::Index(index), value);
    Ok((place, next))
}
