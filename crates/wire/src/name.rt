// Names in inserts and literals: an index, or, where the index is 0, a string that follows it.
ghost use Rattle.std.specs.Prelude.{◌≡◌, ℕ, ◌≤◌};
ghost use Rattle.wire.specs.Name.{read_name};

use crate::text::{NAME_LIMIT, StringPlace, read_string};
use integers::answer::Read;
use integers::integer::WireInt;
use integers::number::TableIndex;

// A name as it stands in the bytes.
#[derive(Drop)]
pub enum NamePlace {
    Index(TableIndex),
    Text(StringPlace),
}

// The name at the place `at`, whose index has a prefix of `width` bits.
pub fn read_name(s: &[u8], at: usize, width: u32) -> Read<NamePlace>
    requires { (1 ≤ width) × (width ≤ 8) }
    ensures { result ≡ read_name width s.now at }
{
    let r = WireInt::read(s, at, width);
    let Ok((n, next)) = r else {
        return Err(r.unwrap_err());
    };
    let index = n.value;
    if index != 0 {
        return Ok((NamePlace::Index(TableIndex::new(index)), next));
    }
    let t = read_string(s, next, NAME_LIMIT);
    let Ok((place, after)) = t else {
        return Err(t.unwrap_err());
    };
    Ok((NamePlace::Text(place), after))
}
