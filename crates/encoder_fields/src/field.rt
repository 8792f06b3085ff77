// A field of a field list that reads well.
ghost use Rattle.std.specs.Prelude.{◌≡◌, ◌<◌, ◌≤◌, length};

use crate::choice::text_at;
use fields::read::FieldPlace;

// Its flag, and its name and its value as they stand in the list.
#[derive(Clone, Copy)]
pub struct ListField<'a> {
    pub flag: u8,
    pub name: &'a [u8],
    pub value: &'a [u8],
    pub ghost bit: { flag < 2 },
    pub ghost name_short: { length name.now ≤ 255 },
    pub ghost value_short: { length value.now ≤ 2047 },
}

impl<'a> ListField<'a> {
    ghost use Rattle.fields.specs.Reading.{field_of};
    ghost use Rattle.encoder_fields.specs.Measure.{InField, as_field};

    // The field of the list `s` at this place.
    pub fn new(s: &'a [u8], place: FieldPlace) -> ListField<'a>
        requires { InField s.now place }
        ensures { as_field result ≡ field_of s.now place }
    {
        ListField {
            flag: place.flag,
            name: text_at(s, place.name),
            value: text_at(s, place.value),
        }
    }
}
