// The lowest entry with a name, or with a name and a value, that is not under deletion. A name's length is compared first, then, where a value is sought that
// has four bytes or more, the last four bytes of the text as one number: most rows cost one look.
ghost use Rattle.std.specs.Prelude.{◌≡◌, true, ℕ, ◌+◌, ◌-◌, ◌≤◌, ◌<◌, length, Some};
ghost use Rattle.state.specs.Layout.{count_of, name_length_at};
ghost use Rattle.table_search.specs.Search.{Ordered};
ghost use Rattle.name_search.specs.Names.{ends_with, serves_at, has_value_at, serves_both_at, lowest_row, paired};

use state::head::count_of;
use state::row::{name_byte_at, name_length_at, offset_at, status_at, text_at, text_length_at};
use text_compare::text::{last_four, stands_at};

// How many bytes at the end of a text are compared at once.
const KEY: usize = 4;

// No name of the table is longer: its length has one byte.
const MOST_NAME: usize = 255;

// The row of the lowest entry with the name and the value, else that of the lowest with the name.
#[derive(Clone, Copy)]
pub enum Paired {
    Both(usize),
    Name(usize),
}

// Does row `i` serve for this name, which is as long as its own?
fn has_name(m: &[u8], i: usize, name: &[u8]) -> bool
    requires i_bound { (i < count_of m.now) × Ordered m.now }
    requires i_value { name_length_at m.now i ≡ length name.now }
    ensures { result ≡ serves_at m.now name.now i }
{
    if status_at(m, i) != 0 {
        return false;
    }
    stands_at(m, text_at(m, i), name)
}

// The lowest entry with this name that is not under deletion.
pub fn find_name(m: &[u8], name: &[u8]) -> Option<usize>
    requires { Ordered m.now }
    ensures { result ≡ lowest_row (serves_at m.now name.now) (count_of m.now) 0 }
{
    let count = count_of(m) as usize;
    let n = name.len();
    for i in 0..count {
        if (name_length_at(m, i) as usize) == n {
            if has_name(m, i, name) {
                return Some(i);
            }
        }
    }
    None
}

// Has row `i`, whose name has `n` bytes, this value?
fn has_value(m: &[u8], i: usize, n: usize, value: &[u8]) -> bool
    requires { (i < count_of m.now) × Ordered m.now × (n ≡ name_length_at m.now i) }
    ensures { result ≡ has_value_at m.now value.now i }
{
    if text_length_at(m, i) - n != value.len() {
        return false;
    }
    stands_at(m, text_at(m, i) + n, value)
}

// Does row `i` serve for this name, which is as long as its own, and this value?
fn has_both(m: &[u8], i: usize, name: &[u8], value: &[u8]) -> bool
    requires i_bound { (i < count_of m.now) × Ordered m.now }
    requires i_value { name_length_at m.now i ≡ length name.now }
    ensures { result ≡ serves_both_at m.now name.now value.now i }
{
    if !has_name(m, i, name) {
        return false;
    }
    has_value(m, i, name.len(), value)
}

// The lowest row from `from` on with this name and this value.
fn find_short(m: &[u8], from: usize, name: &[u8], value: &[u8]) -> Option<usize>
    requires { (from ≤ count_of m.now) × Ordered m.now }
    ensures { result ≡ lowest_row (serves_both_at m.now name.now value.now) (count_of m.now - from) from }
{
    let count = count_of(m) as usize;
    for i in from..count {
        if (name_length_at(m, i) as usize) == name.len() {
            if has_both(m, i, name, value) {
                return Some(i);
            }
        }
    }
    None
}

// Are these the last four bytes of the text up to the end of row `i`? A row that serves for a value of four bytes or more has them; where all text up to
// there is shorter, none is looked at.
fn ends_with(m: &[u8], i: usize, key: u32) -> bool
    requires { (i < count_of m.now) × Ordered m.now }
    ensures { result ≡ ends_with m.now i key }
{
    if (offset_at(m, i + 1) as usize) < KEY {
        return false;
    }
    last_four(m, text_at(m, i + 1)) == key
}

// The same of a value with four bytes or more: a row whose text ends in others has another value.
fn find_long(m: &[u8], from: usize, name: &[u8], value: &[u8]) -> Option<usize>
    requires { (from ≤ count_of m.now) × (4 ≤ length value.now) × Ordered m.now }
    ensures { result ≡ lowest_row (serves_both_at m.now name.now value.now) (count_of m.now - from) from }
{
    let count = count_of(m) as usize;
    let n = name.len();
    let key = last_four(value, value.len());
    for i in from..count {
        if (name_length_at(m, i) as usize) == n {
            if ends_with(m, i, key) {
                if has_both(m, i, name, value) {
                    return Some(i);
                }
            }
        }
    }
    None
}

// The lowest row from `from` on with this name and this value.
fn find_both(m: &[u8], from: usize, name: &[u8], value: &[u8]) -> Option<usize>
    requires { (from ≤ count_of m.now) × Ordered m.now }
    ensures { result ≡ lowest_row (serves_both_at m.now name.now value.now) (count_of m.now - from) from }
{
    if value.len() < KEY {
        return find_short(m, from, name, value);
    }
    find_long(m, from, name, value)
}

// Both, where `first` is the lowest row with the name: no row before it has name and value.
fn pair_from(m: &[u8], first: usize, name: &[u8], value: &[u8]) -> Paired
    requires first_bound { (first < count_of m.now) × Ordered m.now }
    requires first_value { (name_length_at m.now first ≡ length name.now) × (serves_at m.now name.now first ≡ true) }
    requires m_value { lowest_row (serves_at m.now name.now) (count_of m.now) 0 ≡ Some first }
    ensures { Some result ≡ paired (lowest_row (serves_both_at m.now name.now value.now) (count_of m.now) 0)
        (lowest_row (serves_at m.now name.now) (count_of m.now) 0) }
{
    if has_value(m, first, name.len(), value) {
        return Paired::Both(first);
    }
    match find_both(m, first + 1, name, value) {
        Some(i) => Paired::Both(i),
        None => Paired::Name(first),
    }
}

// Both in one pass, as long as the lowest row with the name has the value.
pub fn find_pair(m: &[u8], name: &[u8], value: &[u8]) -> Option<Paired>
    requires { Ordered m.now }
    ensures { result ≡ paired (lowest_row (serves_both_at m.now name.now value.now) (count_of m.now) 0)
        (lowest_row (serves_at m.now name.now) (count_of m.now) 0) }
{
    let n = name.len();
    if MOST_NAME < n {
        return None;
    }
    let long = n as u8;
    let count = count_of(m) as usize;
    for i in 0..count {
        if name_byte_at(m, i) == long {
            if has_name(m, i, name) {
                return Some(pair_from(m, i, name, value));
            }
        }
    }
    None
}
