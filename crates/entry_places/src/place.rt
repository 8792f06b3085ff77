// What an index names, and its name and value as a part of the static text or of the table's bytes.
ghost use Rattle.std.specs.Prelude.{◌≡◌, ℕ, ◌≤◌, ◌<◌, length, Some, IfSome};
ghost use Rattle.statics.specs.Table.{static_text, static_name, static_value};
ghost use Rattle.state.specs.Layout.{count_of};
ghost use Rattle.state.specs.Rows.{name_at, value_at};
ghost use Rattle.table_search.specs.Search.{Ordered};
ghost use Rattle.entry_places.specs.Place.{locate, InPlace, place_name, place_value, place_lengths};

use integers::number::TableIndex;
use state::row::{name_length_at, text_at, value_length_at};
use statics::table::{LAST, static_name, static_place, static_value};
use table_search::find::find;

// Where an entry stands: in the static table, or in a row of the header table.
#[derive(Clone, Copy)]
pub enum EntryPlace {
    Static(TableIndex),
    Dynamic(usize),
}

// What this index names, if it names an entry.
pub fn locate(m: &[u8], index: TableIndex) -> Option<EntryPlace>
    requires { (1 ≤ index.value) × Ordered m.now }
    ensures { result ≡ locate m.now index.value }
{
    if index.value <= LAST {
        return Some(EntryPlace::Static(index));
    }
    match find(m, index) {
        Ok(i) => Some(EntryPlace::Dynamic(i)),
        Err(_) => None,
    }
}

// The name of row `i`.
pub fn row_name(m: &[u8], i: usize) -> &[u8]
    requires { (i < count_of m.now) × Ordered m.now }
    ensures { result.now ≡ name_at m.now i }
{
    let start = text_at(m, i);
    let end = start + (name_length_at(m, i) as usize);
    &m[start..end]
}

// The value of row `i`.
pub fn row_value(m: &[u8], i: usize) -> &[u8]
    requires { (i < count_of m.now) × Ordered m.now }
    ensures { result.now ≡ value_at m.now i }
{
    let start = text_at(m, i) + (name_length_at(m, i) as usize);
    let end = start + (value_length_at(m, i) as usize);
    &m[start..end]
}

// The lengths that a static entry has.
fn static_lengths(index: TableIndex) -> Option<(usize, usize)>
    requires { (1 ≤ index.value) × (index.value ≤ 61) }
    ensures { result ≡ Some (length (static_name index.value), length (static_value index.value)) }
{
    let p = static_place(index);
    Some((p.name as usize, p.value as usize))
}

// The lengths that row `i` has.
fn row_lengths(m: &[u8], i: usize) -> Option<(usize, usize)>
    requires { (i < count_of m.now) × Ordered m.now }
    ensures { result ≡ place_lengths m.now (Some (EntryPlace.Dynamic i)) }
{
    Some((
        name_length_at(m, i) as usize,
        value_length_at(m, i) as usize,
    ))
}

// The name that stands there. It and `value_at` are two functions: one generic function would take both arms as closures, and is no plainer.
pub fn name_at<'a>(text: &'a [u8], m: &'a [u8], place: EntryPlace) -> &'a [u8]
    requires text_value { text.now ≡ static_text }
    requires ordered { Ordered m.now }
    requires in_place { InPlace m.now place }
    ensures { result.now ≡ place_name m.now place }
{
    match place {
        EntryPlace::Static(index) => static_name(text, index),
        EntryPlace::Dynamic(i) => row_name(m, i),
    }
}

// The value that stands there.
pub fn value_at<'a>(text: &'a [u8], m: &'a [u8], place: EntryPlace) -> &'a [u8]
    requires text_value { text.now ≡ static_text }
    requires ordered { Ordered m.now }
    requires in_place { InPlace m.now place }
    ensures { result.now ≡ place_value m.now place }
{
    match place {
        EntryPlace::Static(index) => static_value(text, index),
        EntryPlace::Dynamic(i) => row_value(m, i),
    }
}

// The lengths of the name and of the value that stand there, for which no static text is needed; none where nothing does.
pub fn lengths_at(m: &[u8], place: Option<EntryPlace>) -> Option<(usize, usize)>
    requires ordered { Ordered m.now }
    requires in_place { IfSome place (InPlace m.now) }
    ensures { result ≡ place_lengths m.now place }
{
    match place {
        Some(EntryPlace::Static(index)) => static_lengths(index),
        Some(EntryPlace::Dynamic(i)) => row_lengths(m, i),
        None => None,
    }
}
