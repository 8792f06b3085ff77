// An entry's field and a short literal's, written in the host's list form. Each answers the place after what it wrote.
ghost use Rattle.std.specs.Prelude.{◌≡◌, ℕ, ◌+◌, ◌-◌, ◌<◌, ◌≤◌, length, get_or, Some};
ghost use Rattle.memory.specs.Bytes.{overlay};
ghost use Rattle.statics.specs.Table.{static_text};
ghost use Rattle.fields.specs.Form.{field_form};
ghost use Rattle.blocks.specs.Representation.{Representation};
ghost use Rattle.short_forms.specs.Short.{short_literal_at};
ghost use Rattle.state.specs.Layout.{count_of};
ghost use Rattle.state.specs.Rows.{name_at, value_at};
ghost use Rattle.table_search.specs.Search.{Ordered};
ghost use Rattle.decoder_survey.specs.Measure.{Stands, field_meant, IsField, field_bytes};
ghost use Rattle.decoder_survey.specs.Passes.{row_field, short_form};

use blocks::read::flag_of;
use copying::copy::copy;
use entry_places::place::{locate, name_at, row_name, row_value, value_at};
use field_writing::write::{write_field, write_text};
use integers::number::TableIndex;
use table_search::find::find;

// A field of the tables by its index. An entry stands there, since a field is meant.
pub fn write_indexed<'a>(
    text: &'a [u8],
    m: &'a [u8],
    index: TableIndex,
    out: &mut [u8],
    at: usize,
) -> usize
    requires text_value { (text.now ≡ static_text) × Stands m.now × (0 < index.value) }
    requires field { IsField (field_meant m.now (Representation.indexed index.value)) }
    requires value_in_bounds { at + length (field_bytes (field_meant m.now (Representation.indexed index.value))) ≤ length out.old }
    ensures value { result ≡ at + length (field_bytes (field_meant m.now (Representation.indexed index.value))) }
    ensures out_after { out.new ≡ overlay out.old at (field_bytes (field_meant m.now (Representation.indexed index.value))) }
{
    let Some(place) = locate(m, index) else {
        return at;
    };
    let name = name_at(text, m, place);
    let value = value_at(text, m, place);
    write_field(0, name, value, out, at)
}

// The field of row `i`.
fn write_row(m: &[u8], i: usize, out: &mut [u8], to: usize) -> usize
    requires i_bound { (i < count_of m.now) × Ordered m.now }
    requires i_len_bound { (length (name_at m.now i) ≤ 255) × (length (value_at m.now i) ≤ 2047) }
    requires i_in_bounds { to + length (field_form (row_field m.now i)) ≤ length out.old }
    ensures value { result ≡ to + length (field_form (row_field m.now i)) }
    ensures out_after { out.new ≡ overlay out.old to (field_form (row_field m.now i)) }
{
    let name = row_name(m, i);
    let value = row_value(m, i);
    out[to] = 0;
    let next = write_text(name, out, to + 1);
    write_text(value, out, next)
}

// A field of the header table by its index. A row is found, since a field is meant.
pub fn write_dynamic(m: &[u8], index: TableIndex, out: &mut [u8], to: usize) -> usize
    requires stands { Stands m.now × (61 < index.value) }
    requires field { IsField (field_meant m.now (Representation.indexed index.value)) }
    requires value_in_bounds { to + length (field_bytes (field_meant m.now (Representation.indexed index.value))) ≤ length out.old }
    ensures value { result ≡ to + length (field_bytes (field_meant m.now (Representation.indexed index.value))) }
    ensures out_after { out.new ≡ overlay out.old to (field_bytes (field_meant m.now (Representation.indexed index.value))) }
{
    let Ok(i) = find(m, index) else {
        return to;
    };
    write_row(m, i, out, to)
}

// A short literal at the place `at`, up to the place `next`: from its second byte on it stands in the block as in the list.
pub fn write_short(s: &[u8], at: usize, next: usize, out: &mut [u8], to: usize) -> usize
    requires at_in_bounds { (at < length s.now) × (get_or s.now at 0 < 128) × (short_literal_at s.now at ≡ Some next) }
    requires at_in_bounds_2 { to + (next - at) ≤ length out.old }
    ensures value { result ≡ to + length (short_form s.now at next) }
    ensures out_after { out.new ≡ overlay out.old to (short_form s.now at next) }
{
    let flag = flag_of(s[at]);
    out[to] = flag;
    let from = at + 1;
    copy(&s[from..next], out, to + 1)
}
