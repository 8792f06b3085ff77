// Short strings, looked for: most strings are such ones, and less is judged of them.
ghost use Rattle.std.specs.Prelude.{◌≡◌};
ghost use Rattle.short_strings.specs.Short.{short_string_at};

use integers::byte::wide;
use integers::integer::WireInt;
use wire::text::StringPlace;

// The string at the place `at` and the place after it, if it is plain and its length takes one byte: then it is within every limit. Whoever reads many
// looks for these first.
pub fn short_string(s: &[u8], at: usize) -> Option<(StringPlace, usize)>
    ensures { result ≡ short_string_at s.now at }
{
    if s.len() <= at {
        return None;
    }
    let length = wide(s[at]);
    if WireInt::ONES7 <= length {
        return None;
    }
    let size = length as usize;
    let start = at + 1;
    let left = s.len() - start;
    if left < size {
        return None;
    }
    let next = start + size;
    Some((StringPlace::plain(start, size), next))
}
