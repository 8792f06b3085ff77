// Searches of the static table: a name's hash leaves one entry to compare, and entries with one name stand together. Up to 16 bytes are compared by two
// words. Most values are those of no entry by their length and first byte.
ghost use Rattle.std.specs.Prelude.{◌≡◌, ℕ, ◌+◌, ◌≤◌};
ghost use mathlib.Core.List.{Memᴰ};
ghost use Rattle.statics.specs.Table.{last_static, static_name};
ghost use Rattle.static_search.specs.Search.{has_name, find_name, find_both};
ghost use Rattle.static_search.specs.Hash.{candidate_of, has_value, last_of, may_be_value};
ghost use Rattle.static_search.specs.Compared.{compared_name, compared_both};

use integers::number::TableIndex;
use memory::compare::same;
use static_search::ends::{ends_of, name_ends, value_ends};
use static_search::hashes::{hashed_entry, name_hash};
use statics::table::{static_place, static_text};

// The most bytes that two words tell.
const TWO_WORDS: usize = 16;

// The one entry that may have this name: that which the hash leaves, where its name has as many bytes.
fn candidate(name: &[u8]) -> Option<TableIndex>
    ensures { result ≡ candidate_of name.now }
{
    if name.len() == 0 {
        return None;
    }
    let hashed = hashed_entry(name_hash(name));
    let index = hashed.index;
    if hashed.length == name.len() {
        return Some(index);
    }
    None
}

// Has this entry this name? Bytes of a name are compared here alone, so of the candidate alone. The static text is laid on the stack where it is made, so
// only for a long name.
fn has_name(index: TableIndex, name: &[u8]) -> bool
    requires { Memᴰ index.value (compared_name name.now) }
    ensures { result ≡ has_name index.value name.now }
{
    let n = name.len();
    if n <= TWO_WORDS {
        return name_ends(index) == ends_of(name);
    }
    let text = static_text();
    same(&text, static_place(index).start as usize, name, 0, n)
}

// Has the entry that stands so many behind `first`, which is the lowest with its name, this value? Bytes of a value are compared here alone, so only of
// entries with that name. No static value has more than 16 bytes.
fn has_value(first: TableIndex, behind: u32, value: &[u8]) -> bool
    requires le_value { (1 ≤ first.value) × (first.value + behind ≤ last_static) }
    requires fact { Memᴰ (first.value + behind) (compared_both (static_name first.value)) }
    ensures { result ≡ has_value (first.value + behind) value.now }
{
    let index = TableIndex::new(first.value + behind);
    let p = static_place(index);
    let n = p.value as usize;
    if n != value.len() {
        return false;
    }
    value_ends(index) == ends_of(value)
}

// The lowest index of an entry with this name.
pub fn find_name(name: &[u8]) -> Option<TableIndex>
    ensures { result ≡ find_name name.now }
{
    let left = candidate(name);
    let Some(index) = left else {
        return None;
    };
    if !has_name(index, name) {
        return None;
    }
    Some(index)
}

// The last entry with the name of this one, which is the lowest with it: only four names occur more than once.
#[tactic(auto, unfolding(static_search::specs::Hash::last_of))]
fn last_of(index: TableIndex) -> TableIndex
    ensures { result ≡ record { value = last_of index.value } }
{
    let i = index.value;
    match i {
        2 => TableIndex::new(3),
        4 => TableIndex::new(5),
        6 => TableIndex::new(7),
        8 => TableIndex::new(14),
        _ => index,
    }
}

// The lowest entry with this value and with the name of `first`, which is the lowest with it.
fn find_value(first: TableIndex, value: &[u8]) -> Option<TableIndex>
    requires { (1 ≤ first.value) × (first.value ≤ last_static) × (find_name (static_name first.value) ≡ Some first) }
    ensures { result ≡ find_both (static_name first.value) value.now }
{
    let last = last_of(first);
    for i in first.value..last.value + 1 {
        if has_value(first, i - first.value, value) {
            return Some(TableIndex::new(i));
        }
    }
    None
}

// May a static entry have this value? Length and first byte tell, so that most values need no search.
#[tactic(auto, unfolding(static_search::specs::Hash::may_be_value, static_search::specs::Hash::may_begin))]
fn may_be_value(value: &[u8]) -> bool
    ensures { result ≡ may_be_value value.now }
{
    let n = value.len();
    if n == 0 {
        return true;
    }
    let first = value[0];
    match n {
        1 => first == b'/',
        3 => first < b'H',
        4 => {
            if first == b'P' {
                return true;
            }
            first == b'h'
        }
        5 => first == b'h',
        11 => first == b'/',
        13 => first == b'g',
        _ => false,
    }
}

// The lowest entry with this name and this value.
pub fn find_both(name: &[u8], value: &[u8]) -> Option<TableIndex>
    ensures { result ≡ find_both name.now value.now }
{
    if !may_be_value(value) {
        return None;
    }
    match find_name(name) {
        Some(i) => find_value(i, value),
        None => None,
    }
}
