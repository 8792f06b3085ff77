// A field list in readable form, `machine: L-17, hours: 4100, turns: 2`, and hours.
#![tactic(auto)]

ghost use Rattle.fields.specs.Reading.{InText};

pub mod hours;

use fields::read::{FieldPlace, read_field};
use reports::report::text_at;
use shown_bytes::shown::{Place, place_in, shown_byte};
use text_io::print::Printer;

fn character(out: &mut Printer, place: Place, c: u8) {
    let shown = shown_byte(place, c);
    out.bytes(shown.as_bytes());
}

// Bytes as the name of a field is shown.
pub fn name(out: &mut Printer, s: &[u8]) {
    for c in s {
        character(out, Place::Name, *c);
    }
}

fn value(out: &mut Printer, s: &[u8]) {
    for (i, c) in s.iter().enumerate() {
        character(out, place_in(i, s.len()), *c);
    }
}

fn field(out: &mut Printer, list: &[u8], place: FieldPlace)
    requires { InText list.now place.name × InText list.now place.value }
{
    name(out, text_at(list, place.name));
    write!(out, ": ");
    value(out, text_at(list, place.value));
    if place.flag == 1 {
        write!(out, " = never store");
    }
}

fn each_field(out: &mut Printer, list: &[u8]) {
    let mut at: usize = 0;
    // No step is counted, so `for` has none to take: where a field ends says its reader.
    while at < list.len() {
        let Ok((place, next)) = read_field(list, at) else {
            return;
        };
        if 0 < at {
            write!(out, ", ");
        }
        field(out, list, place);
        at = next;
    }
}

// The fields one after another.
pub fn fields(out: &mut Printer, list: &[u8]) {
    if list.is_empty() {
        write!(out, "no fields");
    }
    each_field(out, list);
}
