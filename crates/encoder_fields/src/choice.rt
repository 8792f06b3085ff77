// The representation of a field: flag 1 is a literal with N; else the lowest static entry with name and value, else the lowest such entry of the header
// table not under deletion, else a literal. A literal's name is by index where either table has it.
ghost use Rattle.std.specs.Prelude.{◌≡◌, true};
ghost use Rattle.fields.specs.Reading.{InText, text_of};
ghost use Rattle.state.specs.Forms.{forms_encoder};
ghost use Rattle.encoder_fields.specs.Naming.{literal_with};
ghost use Rattle.encoder_fields.specs.Measure.{as_field, field_with, Chooses};

use crate::field::ListField;
use crate::name::{choose_name, row_index, static_first};
use fields::read::TextPlace;
use integers::number::TableIndex;
use name_search::names::Paired;

#[derive(Clone, Copy)]
pub enum Choice {
    // Name and value by index.
    Indexed(TableIndex),
    // A literal, its name by index.
    Named(TableIndex),
    // A literal, its name by its bytes.
    Literal,
}

// The name or the value of the field list that stands there.
pub fn text_at(s: &[u8], place: TextPlace) -> &[u8]
    requires { InText s.now place }
    ensures { result.now ≡ text_of s.now place }
{
    let start = place.start;
    let end = start + place.length;
    &s[start..end]
}

// A literal, its name by this index or by its bytes.
fn literal(name: Option<TableIndex>) -> Choice
    ensures { result ≡ literal_with name }
{
    match name {
        Some(i) => Choice::Named(i),
        None => Choice::Literal,
    }
}

// A field that may be stored. The static name is looked for only where no entry has name and value.
fn choose_stored(m: &[u8], name: &[u8], value: &[u8]) -> Choice
    requires { forms_encoder m.now ≡ true }
    ensures { Chooses m.now (field_with 0 name.now value.now) result }
{
    if let Some(j) = static_lookup::lookup::find_both(name, value) {
        return Choice::Indexed(j);
    }
    let Some(pair) = name_search::names::find_pair(m, name, value) else {
        return literal(static_first(name, None));
    };
    match pair {
        Paired::Both(place) => Choice::Indexed(row_index(m, place)),
        Paired::Name(place) => literal(static_first(name, Some(row_index(m, place)))),
    }
}

pub fn choose_field(m: &[u8], f: ListField) -> Choice
    requires { forms_encoder m.now ≡ true }
    ensures { Chooses m.now (as_field f.entry) result }
{
    if f.flag == 1 {
        return literal(choose_name(m, f.name));
    }
    choose_stored(m, f.name, f.value)
}
