// The field list read from left to right.
ghost use Rattle.std.specs.Prelude.{◌≡◌, ℕ, ◌+◌, length};
ghost use Rattle.integers.specs.Answers.{checked_number};
ghost use Rattle.fields.specs.Reading.{field_list_answer, list_checked, read_length, read_text, text_start, read_field, read_field_list, field_answer, InText};

use integers::answer::{Read, Refusal};
use integers::byte::wide_size;
use integers::integer::WireInt;
use wire::text::{NAME_LIMIT, VALUE_LIMIT};

// The values of a length's byte: from here on it says that another follows.
pub const GROUP: usize = WireInt::GROUP as usize;

// Where a name or a value of the list stands.
#[derive(Clone, Copy)]
pub struct TextPlace {
    pub start: usize,
    pub length: usize,
}

// A field as it stands in the list.
#[derive(Clone, Copy)]
pub struct FieldPlace {
    pub flag: u8,
    pub name: TextPlace,
    pub value: TextPlace,
}

// The length at the place `at`, of at most `limit`.
#[tactic(auto, unfolding(crate::specs::Reading::read_length))]
fn read_length(s: &[u8], at: usize, limit: usize) -> Read<usize>
    ensures { result ≡ read_length s.now at limit }
{
    if s.len() <= at {
        return Err(Refusal::BadFieldList);
    }
    let low = wide_size(s[at]);
    let next = at + 1;
    if low < GROUP {
        if limit < low {
            return Err(Refusal::TooLong);
        }
        return Ok((low, next));
    }
    if s.len() <= next {
        return Err(Refusal::BadFieldList);
    }
    let high = wide_size(s[next]);
    if GROUP <= high {
        return Err(Refusal::TooLong);
    }
    if high == 0 {
        return Err(Refusal::BadFieldList);
    }
    let n = low % GROUP + GROUP * high;
    if limit < n {
        return Err(Refusal::TooLong);
    }
    Ok((n, at + 2))
}

// The name or value of at most `limit` bytes at the place `at`.
#[tactic(auto, unfolding(crate::specs::Reading::read_text))]
fn read_text(s: &[u8], at: usize, limit: usize) -> Read<TextPlace>
    ensures { result ≡ read_text s.now at limit }
{
    let r = read_length(s, at, limit);
    let Ok((length, start)) = r else {
        return Err(r.unwrap_err());
    };
    if s.len() - start < length {
        return Err(Refusal::BadFieldList);
    }
    Ok((TextPlace { start, length }, start + length))
}

// The field at the place `at`.
#[tactic(auto, unfolding(crate::specs::Reading::read_field))]
pub fn read_field(s: &[u8], at: usize) -> Read<FieldPlace>
    ensures { result ≡ read_field s.now at }
{
    if s.len() <= at {
        return Err(Refusal::BadFieldList);
    }
    let flag = s[at];
    if 1 < flag {
        return Err(Refusal::BadFieldList);
    }
    let r = read_text(s, at + 1, NAME_LIMIT);
    let Ok((name, next)) = r else {
        return Err(r.unwrap_err());
    };
    let r = read_text(s, next, VALUE_LIMIT);
    let Ok((value, after)) = r else {
        return Err(r.unwrap_err());
    };
    Ok((FieldPlace { flag, name, value }, after))
}

// The place of the text at the place `at` of a list where one reads well: its length is taken as it stands.
#[tactic(auto, unfolding(crate::specs::Reading::text_start))]
fn text_start(s: &[u8], at: usize) -> TextPlace
    requires { InText s.now (text_start s.now at) }
    ensures { result ≡ text_start s.now at }
{
    let low = wide_size(s[at]);
    if low < GROUP {
        return TextPlace {
            start: at + 1,
            length: low,
        };
    }
    let high = wide_size(s[at + 1]);
    TextPlace {
        start: at + 2,
        length: low % GROUP + GROUP * high,
    }
}

// The field at the place `at` of a list where one reads well: nothing is judged again.
pub fn field_at(s: &[u8], at: usize) -> FieldPlace
    requires { (field_answer (read_field s.now at)).number ≡ 0 }
    ensures { read_field s.now at ≡ Ok (result, result.value.start + result.value.length) }
{
    let name = text_start(s, at + 1);
    let value = text_start(s, name.start + name.length);
    FieldPlace {
        flag: s[at],
        name,
        value,
    }
}

// The reading of a whole list: whether it is one, or its first refusal.
pub fn check_list(s: &[u8]) -> Result<(), Refusal>
    ensures checked { result ≡ list_checked (read_field_list s.now) }
    ensures number { checked_number result ≡ (field_list_answer (read_field_list s.now)).number }
{
    // No step is counted, so `for` has none to take: where a field ends says its reader. An iterator would keep this place and make this call.
    let mut at: usize = 0;
    while at < s.len() {
        (_, at) = read_field(s, at)?;
    }
    Ok(())
}
