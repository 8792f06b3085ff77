// The fields of a block written in the host's list form.
ghost use Rattle.std.specs.Prelude.{◌≡◌, ℕ, ◌+◌, ◌<◌, ◌≤◌, length, get_or};
ghost use Rattle.memory.specs.Bytes.{overlay};
ghost use Rattle.statics.specs.Table.{static_text};
ghost use Rattle.wire.specs.Text.{InString, string_length, string_bytes};
ghost use Rattle.fields.specs.Form.{text_form, field_form};
ghost use Rattle.blocks.specs.Reading.{InBytes, read_representation};
ghost use Rattle.short_forms.specs.Short.{short_index_at};
ghost use Rattle.decoder_survey.specs.Measure.{Stands, field_at, named_at, literal_at, IsField, field_bytes, ReadsWell, meaning_of, IsList, list_bytes};
ghost use Rattle.decoder_survey.specs.Passes.{meaning_from, Unwritten};
ghost use Rattle.decoder_fields.specs.Indexes.{index_in, IsLiteral, row_index};

use blocks::read::{INDEXED, RepresentationPlace, read_representation};
use copied_fields::write::{write_dynamic, write_indexed, write_short};
use entry_places::place::{locate, name_at};
use field_writing::write::{write_length, write_text};
use integers::number::TableIndex;
use short_forms::short::{read_literal_at, short_index, short_literal};
use statics::table::{LAST, static_text};
use wire::name::NamePlace;
use wire::text::StringPlace;

// A string of `s` with its length before it.
fn write_string_text(s: &[u8], p: StringPlace, out: &mut [u8], at: usize) -> usize
    requires in_string { InString s.now p × (string_length s.now p ≤ 2047) }
    requires p_in_bounds { at + length (text_form (string_bytes s.now p)) ≤ length out.old }
    ensures value { result ≡ at + length (text_form (string_bytes s.now p)) }
    ensures out_after { out.new ≡ overlay out.old at (text_form (string_bytes s.now p)) }
{
    let next = write_length(p.length(s), out, at);
    p.copy(s, out, next)
}

// A literal whose name is an entry's, which stands there, since a field is meant.
fn write_named<'a>(
    text: &'a [u8],
    m: &'a [u8],
    s: &[u8],
    flag: u8,
    index: TableIndex,
    value: StringPlace,
    out: &mut [u8],
    at: usize,
) -> usize
    requires text_value { (text.now ≡ static_text) × Stands m.now }
    requires in_bytes { InBytes s.now (RepresentationPlace.Literal flag (NamePlace.Index index) value) }
    requires field { IsField (named_at m.now s.now flag index value) }
    requires value_in_bounds { at + length (field_bytes (named_at m.now s.now flag index value)) ≤ length out.old }
    ensures value { result ≡ at + length (field_bytes (named_at m.now s.now flag index value)) }
    ensures out_after { out.new ≡ overlay out.old at (field_bytes (named_at m.now s.now flag index value)) }
{
    let Some(place) = locate(m, index) else {
        return at;
    };
    out[at] = flag;
    let name = name_at(text, m, place);
    let next = write_text(name, out, at + 1);
    write_string_text(s, value, out, next)
}

// A literal whose name is a string.
fn write_literal(
    s: &[u8],
    flag: u8,
    name: StringPlace,
    value: StringPlace,
    out: &mut [u8],
    at: usize,
) -> usize
    requires in_bytes { InBytes s.now (RepresentationPlace.Literal flag (NamePlace.Text name) value) }
    requires value_in_bounds { at + length (field_form (literal_at s.now flag name value)) ≤ length out.old }
    ensures value { result ≡ at + length (field_form (literal_at s.now flag name value)) }
    ensures out_after { out.new ≡ overlay out.old at (field_form (literal_at s.now flag name value)) }
{
    out[at] = flag;
    let next = write_string_text(s, name, out, at + 1);
    write_string_text(s, value, out, next)
}

// A literal's field.
fn write_literal_place<'a>(
    text: &'a [u8],
    m: &'a [u8],
    s: &[u8],
    r: RepresentationPlace,
    out: &mut [u8],
    at: usize,
) -> usize
    requires text_value { (text.now ≡ static_text) × Stands m.now }
    requires literal { IsLiteral r }
    requires in_bytes { InBytes s.now r }
    requires field { IsField (field_at m.now s.now r) }
    requires r_in_bounds { at + length (field_bytes (field_at m.now s.now r)) ≤ length out.old }
    ensures value { result ≡ at + length (field_bytes (field_at m.now s.now r)) }
    ensures out_after { out.new ≡ overlay out.old at (field_bytes (field_at m.now s.now r)) }
{
    match r {
        // No index is handed over.
        RepresentationPlace::Indexed(_) => at,
        RepresentationPlace::Literal(flag, name, value) => match name {
            NamePlace::Index(index) => write_named(text, m, s, flag, index, value, out, at),
            NamePlace::Text(bytes) => write_literal(s, flag, bytes, value, out, at),
        },
    }
}

// The index at the place `at` and the place after it, if one is read there, whatever its form.
fn read_any_index(s: &[u8], at: usize) -> Option<(TableIndex, usize)>
    ensures { result ≡ index_in (read_representation s.now at) }
{
    let r = read_representation(s, at);
    let Ok((place, next)) = r else {
        return None;
    };
    let RepresentationPlace::Indexed(index) = place else {
        return None;
    };
    Some((index, next))
}

// The same. Most are short, and for these no reader is asked.
fn read_index(s: &[u8], at: usize) -> Option<(TableIndex, usize)>
    requires { (at < length s.now) × (128 ≤ get_or s.now at 0) }
    ensures { result ≡ index_in (read_representation s.now at) }
{
    let i = short_index(s, at);
    let Some((index, next)) = i else {
        return read_any_index(s, at);
    };
    Some((index, next))
}

// All fields from a place of the block on, whatever their form. The static text is made here, once: 86 instructions. A block does not go back to
// `write_fields`: the text would be made again at the next static index, and a row would gain two instructions (13 rows behind a static index take 2,432,
// before it 2,408). Short literals looked for here too were measured: 201 instructions a field for 219 (browser requests, literal), but 171 for 167 where all
// fields are indexes (warm), which is too much. `write_indexed` is called in this one place: a second makes the code slower.
fn write_rest(m: &[u8], s: &[u8], from: usize, out: &mut [u8], start: usize)
    requires stands { Stands m.now }
    requires unwritten { Unwritten m.now s.now out.old from start }
    ensures { out.new ≡ overlay out.old start (list_bytes (meaning_from m.now s.now from)) }
{
    let text = static_text();
    let mut to: usize = start;
    let mut at: usize = from;
    // No `for`: a representation that was read says where the next begins.
    while at < s.len() {
        if INDEXED <= s[at] {
            let i = read_index(s, at);
            let Some((index, next)) = i else {
                return;
            };
            to = write_indexed(&text, m, index, out, to);
            at = next;
        } else {
            let r = read_literal_at(s, at);
            let Ok((place, next)) = r else {
                return;
            };
            to = write_literal_place(&text, m, s, place, out, to);
            at = next;
        }
    }
}

// The short index of the header table at the place `at`. One function, so that the compiler makes one test of its three.
fn short_row_index(s: &[u8], at: usize) -> Option<(TableIndex, usize)>
    requires { (at < length s.now) × (128 ≤ get_or s.now at 0) }
    ensures { result ≡ row_index (short_index_at s.now at) }
{
    let Some((index, next)) = short_index(s, at) else {
        return None;
    };
    if index.value <= LAST {
        return None;
    }
    Some((index, next))
}

// All fields of a block that reads well and waits for nothing, from the front of the output. The first that is neither a short literal nor a short
// index of the header table hands over to `write_rest`.
pub fn write_fields(m: &[u8], s: &[u8], out: &mut [u8])
    requires stands { Stands m.now }
    requires reads_well { ReadsWell s.now }
    requires list { IsList (meaning_of m.now s.now) }
    requires s_in_bounds { length (list_bytes (meaning_of m.now s.now)) ≤ length out.old }
    ensures { out.new ≡ overlay out.old 0 (list_bytes (meaning_of m.now s.now)) }
{
    let mut to: usize = 0;
    let mut at: usize = 0;
    // No `for`: a representation that was read says where the next begins.
    while at < s.len() {
        if s[at] < INDEXED {
            let l = short_literal(s, at);
            let Some(next) = l else {
                write_rest(m, s, at, out, to);
                return;
            };
            to = write_short(s, at, next, out, to);
            at = next;
        } else {
            let i = short_row_index(s, at);
            let Some((index, next)) = i else {
                write_rest(m, s, at, out, to);
                return;
            };
            to = write_dynamic(m, index, out, to);
            at = next;
        }
    }
}
