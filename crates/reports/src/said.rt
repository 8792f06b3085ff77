// How often a field list has a name, and where its value stands.
ghost use Rattle.std.specs.Prelude.{◌≡◌};
ghost use Rattle.fields.specs.Reading.{read_field_list, text_of, InText};
ghost use Rattle.reports.specs.Report.{values_of};
ghost use Rattle.reports.specs.Said.{times, times_told, fields_in, SaidInside, with_value, with_field};

use fields::read::{FieldPlace, TextPlace, read_field};
use tokens::is;

// Three answers, so neither an Option nor a Result: no value, one, or more, which are told apart.
#[derive(Clone, Copy)]
pub enum Said {
    Nothing,
    Once(TextPlace),
    More,
}

// The bytes of a name or a value of the list.
pub fn text_at(list: &[u8], place: TextPlace) -> &[u8]
    requires { InText list.now place }
    ensures { result.now ≡ text_of list.now place }
{
    let start = place.start;
    let end = start + place.length;
    &list[start..end]
}

fn with_value(before: Said, place: TextPlace) -> Said
    ensures { result ≡ with_value before place }
{
    match before {
        Said::Nothing => Said::Once(place),
        Said::Once(_) => Said::More,
        Said::More => Said::More,
    }
}

fn with_field(before: Said, name: &[u8], list: &[u8], place: FieldPlace) -> Said
    requires { InText list.now place.name }
    ensures { result ≡ with_field name.now list.now before place }
{
    let n = place.name;
    if is(text_at(list, n), name) {
        let v = place.value;
        return with_value(before, v);
    }
    before
}

// What a list has under a name; bytes that are no field list have nothing.
pub fn look_up(list: &[u8], name: &[u8]) -> Said
    ensures result_value { times_told list.now result ≡ times (values_of name.now (fields_in (read_field_list list.now))) }
    ensures said_inside { SaidInside list.now result }
{
    let mut told = Said::Nothing;
    let mut at: usize = 0;
    // No step is counted, so `for` has none to take: where a field ends says its reader.
    while at < list.len() {
        let Ok((place, next)) = read_field(list, at) else {
            return Said::Nothing;
        };
        told = with_field(told, name, list, place);
        at = next;
    }
    told
}
