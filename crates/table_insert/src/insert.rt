// Entries put in at their place. Text and rows behind them move up; the bytes of the name may come from anywhere, the row of an entry included.
ghost use Rattle.std.specs.Prelude.{◌≡◌, ℕ, ◌+◌, ◌≤◌, ◌<◌, length};
ghost use Rattle.wire.specs.Text.{InString, string_length, string_bytes};
ghost use Rattle.state.specs.Layout.{front_length, text_place, offset_at, name_length_at};
ghost use Rattle.state.specs.Rows.{name_at};
ghost use Rattle.table.specs.Changes.{Opening, opened, text_opened, inserted, NamedHere};

use copying::copy::copy;
use integers::number::TableIndex;
use memory::copy::{move_down, move_up};
use state::head::count_of;
use state::layout::{ENTRY_SIZE, TEXT};
use state::row::{name_length_at, offset_at, text_at};
use table_rows::{open_row, record_insert};
use wire::text::StringPlace;

// Moves the text behind `offset` up by `text` bytes; `left` bytes stand there.
fn open_text(m: &mut [u8], offset: usize, text: usize, left: usize)
    requires { (offset + text + left ≤ 4096) × (front_length ≤ length m.old) }
    ensures { m.new ≡ text_opened m.old offset text left }
{
    move_up(m, TEXT + (offset + text), TEXT + offset, left);
}

// Puts a row for an entry with these lengths in, and answers the place of its text, which is still to come.
pub fn open(m: &mut [u8], place: usize, index: TableIndex, name: usize, value: usize) -> usize
    requires { Opening m.old place name value }
    ensures value { result ≡ text_place + offset_at m.old place }
    ensures m_after { m.new ≡ opened m.old place index.value name value }
{
    let count = count_of(m) as usize;
    let offset = offset_at(m, place);
    let start = offset as usize;
    let left = (offset_at(m, count) as usize) - start;
    let text = name + value;
    record_insert(m, (text + ENTRY_SIZE) as u16);
    open_row(m, place, count, index, offset, name as u8, text as u32);
    open_text(m, start, text, left);
    TEXT + start
}

// Name and value from slices.
pub fn insert(m: &mut [u8], place: usize, index: TableIndex, name: &[u8], value: &[u8])
    requires { Opening m.old place (length name.now) (length value.now) }
    ensures { m.new ≡ inserted m.old place index.value name.now value.now }
{
    let at = open(m, place, index, name.len(), value.len());
    let next = copy(name, m, at);
    copy(value, m, next);
}

// The name from a slice, such as the static text's; the value a string of `s`.
pub fn insert_named(
    m: &mut [u8],
    place: usize,
    index: TableIndex,
    name: &[u8],
    s: &[u8],
    value: StringPlace,
)
    requires in_string { InString s.now value }
    requires opening { Opening m.old place (length name.now) (string_length s.now value) }
    ensures { m.new ≡ inserted m.old place index.value name.now (string_bytes s.now value) }
{
    let at = open(m, place, index, name.len(), value.length(s));
    let next = copy(name, m, at);
    value.copy(s, m, next);
}

// Name and value both strings of `s`.
pub fn insert_strings(
    m: &mut [u8],
    place: usize,
    index: TableIndex,
    s: &[u8],
    name: StringPlace,
    value: StringPlace,
)
    requires in_string { (InString s.now name) × (InString s.now value) }
    requires opening { Opening m.old place (string_length s.now name) (string_length s.now value) }
    ensures { m.new ≡ inserted m.old place index.value (string_bytes s.now name) (string_bytes s.now value) }
{
    let at = open(m, place, index, name.length(s), value.length(s));
    let next = name.copy(s, m, at);
    value.copy(s, m, next);
}

// The name that of the entry in row `named`, copied by position: opening the table moves it if it stands behind the new entry.
pub fn insert_like(
    m: &mut [u8],
    place: usize,
    index: TableIndex,
    named: usize,
    s: &[u8],
    value: StringPlace,
)
    requires in_string { InString s.now value }
    requires named_here { NamedHere m.old place named }
    requires opening { Opening m.old place (name_length_at m.old named) (string_length s.now value) }
    ensures { m.new ≡ inserted m.old place index.value (name_at m.old named) (string_bytes s.now value) }
{
    let start = text_at(m, named);
    let name = name_length_at(m, named) as usize;
    let text = value.length(s);
    let at = open(m, place, index, name, text);
    if named < place {
        move_up(m, at, start, name);
    } else {
        move_down(m, at, start + (name + text), name);
    }
    value.copy(s, m, at + name);
}
