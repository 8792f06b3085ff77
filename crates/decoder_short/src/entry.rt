// Entries of both tables by their index, and literals whose name is an entry's.
ghost use Rattle.std.specs.Prelude.{◌≡◌, List, ℕ, ◌+◌, ◌<◌, ◌≤◌, length, get_or};
ghost use Rattle.statics.specs.Table.{static_text};
ghost use Rattle.wire.specs.Name.{read_name};
ghost use Rattle.decoder_survey.specs.Measure.{Stands};
ghost use Rattle.decoder_literals.specs.Taking.{FieldTaken};
ghost use Rattle.decoder_short.specs.Pass.{FieldsTaken};

use blocks::read::{INDEXED, flag_of};
use decoder_literals::literal::take_string;
use entry_places::place::{locate, name_at, row_name, row_value};
use field_writing::write::{write_field, write_text};
use integers::integer::WireInt;
use integers::number::TableIndex;
use short_forms::short::short_index;
use statics::table::{LAST, static_name, static_text, static_value};
use table_search::find::find;
use wire::name::NamePlace;

// The most bytes that a field has beside its name and its value: the flag, and two for each length. Up to the value's length these are three.
const FIELD_MORE: usize = 5;

const NAME_MORE: usize = 3;

// The field of a row by its index.
pub fn take_row(m: &[u8], s: &[u8], at: usize, out: &mut [u8], to: usize) -> Option<(usize, usize)>
    requires { Stands m.now × (at < length s.now) × (128 ≤ get_or s.now at 0) × (to ≤ length out.old) }
    ensures { FieldTaken m.now s.now at out.old out.new to result }
{
    let Some((index, next)) = short_index(s, at) else {
        return None;
    };
    if index.value <= LAST {
        return None;
    }
    let Ok(row) = find(m, index) else {
        return None;
    };
    let name = row_name(m, row);
    let value = row_value(m, row);
    if out.len() < to + name.len() + value.len() + FIELD_MORE {
        return None;
    }
    out[to] = 0;
    let after = write_text(name, out, to + 1);
    Some((next, write_text(value, out, after)))
}

// The field of a static entry by its index.
fn take_static(
    text: &[u8],
    s: &[u8],
    at: usize,
    out: &mut [u8],
    to: usize,
) -> Option<(usize, usize)>
    requires { (text.now ≡ static_text) × (at < length s.now) × (128 ≤ get_or s.now at 0) × (to ≤ length out.old) }
    ensures { (m : List ℕ) → Stands m → FieldTaken m s.now at out.old out.new to result }
{
    let Some((index, next)) = short_index(s, at) else {
        return None;
    };
    if LAST < index.value {
        return None;
    }
    let name = static_name(text, index);
    let value = static_value(text, index);
    if out.len() - to < name.len() + value.len() + FIELD_MORE {
        return None;
    }
    Some((next, write_field(0, name, value, out, to)))
}

// The literal at the place `at`, whose name is that of this index, and whose value stands at the place `next`. It has the parameters of `write_named` of
// decoder_fields and little else: that one knows that the field fits, and has read its value; this one asks for room, and takes the value as it reads it.
fn take_value<'a>(
    text: &'a [u8],
    m: &'a [u8],
    s: &[u8],
    at: usize,
    index: TableIndex,
    next: usize,
    out: &mut [u8],
    to: usize,
) -> Option<(usize, usize)>
    requires text_value { (text.now ≡ static_text) × Stands m.now × (at < length s.now) × (get_or s.now at 0 < 128) × (to ≤ length out.old) }
    requires at_value { read_name 6 s.now at ≡ Ok (NamePlace.Index index, next) }
    ensures { FieldTaken m.now s.now at out.old out.new to result }
{
    let place = locate(m, index)?;
    let name = name_at(text, m, place);
    if out.len() - to < name.len() + NAME_MORE {
        return None;
    }
    out[to] = flag_of(s[at]);
    let after = write_text(name, out, to + 1);
    take_string(s, next, out, after)
}

// The literal at the place `at`, if its name is an entry's. It reads the index as `short_named` does, which reads the value too: here the value is taken
// only behind the name. The four slices are no struct: clauses name the bytes of each, and of the last before and after.
fn take_named<'a>(
    text: &'a [u8],
    m: &'a [u8],
    s: &[u8],
    at: usize,
    out: &mut [u8],
    to: usize,
) -> Option<(usize, usize)>
    requires { (text.now ≡ static_text) × Stands m.now × (at < length s.now) × (get_or s.now at 0 < 128) × (to ≤ length out.old) }
    ensures { FieldTaken m.now s.now at out.old out.new to result }
{
    let r = WireInt::short(s, at, WireInt::PREFIX6);
    let Some((n, next)) = r else {
        return None;
    };
    let value = n.value;
    if value == 0 {
        return None;
    }
    take_value(text, m, s, at, TableIndex::new(value), next, out, to)
}

// What names an entry for its name, or a static one.
fn take_entry<'a>(
    text: &'a [u8],
    m: &'a [u8],
    s: &[u8],
    at: usize,
    out: &mut [u8],
    to: usize,
) -> Option<(usize, usize)>
    requires { (text.now ≡ static_text) × Stands m.now × (at < length s.now) × (to ≤ length out.old) }
    ensures { FieldTaken m.now s.now at out.old out.new to result }
{
    if INDEXED <= s[at] {
        return take_static(text, s, at, out, to);
    }
    take_named(text, m, s, at, out, to)
}

// As many of these as stand there. The static text is made here alone.
pub fn run(m: &[u8], s: &[u8], from: usize, out: &mut [u8], start: usize) -> Option<(usize, usize)>
    requires { Stands m.now × (from < length s.now) × (start ≤ length out.old) }
    ensures { FieldsTaken m.now s.now from out.old out.new start result }
{
    let text = static_text();
    let mut to: usize = start;
    let mut at: usize = from;
    // No `for`: a field that was taken says where the next begins.
    while at < s.len() {
        let l = take_entry(&text, m, s, at, out, to);
        let Some((next, after)) = l else {
            if at == from {
                return None;
            }
            return Some((at, to));
        };
        at = next;
        to = after;
    }
    Some((at, to))
}
