// The form in which a byte of a field is printed: no byte can be taken for the gateway's own words.
ghost use Rattle.std.specs.Prelude.{◌≡◌, ◌<◌};
ghost use Rattle.shown_bytes.specs.Ascii.{printable as printable_byte};
ghost use Rattle.shown_bytes.specs.Shown.{is_inside, plain as plain_byte, hex_digit, shown_byte, bytes_of, place_in};

use std::slice;
use tokens::hex::BASE;

// Where a byte stands: in a name, as the first or the last of a value, or between these.
#[derive(Clone, Copy, Debug, PartialEq, Eq)]
pub enum Place {
    Name,
    Edge,
    Inside,
}

// The form: the byte as it is, or four bytes that stand for it.
#[derive(Clone, Copy, Debug, PartialEq, Eq)]
pub enum Shown {
    Plain(u8),
    Escaped([u8; 4]),
}

impl Shown {
    pub fn as_bytes(&self) -> &[u8]
        ensures { result.now ≡ bytes_of self.now }
    {
        match self {
            Shown::Plain(c) => slice::from_ref(c),
            Shown::Escaped(bytes) => bytes,
        }
    }
}

#[tactic(auto, unfolding(crate::specs::Ascii::printable))]
pub fn printable(c: u8) -> bool
    ensures { result ≡ printable_byte c }
{
    (b' '..=b'~').contains(&c)
}

fn inside(place: Place) -> bool
    ensures { result ≡ is_inside place }
{
    match place {
        Place::Name => false,
        Place::Edge => false,
        Place::Inside => true,
    }
}

// Is the byte shown as it is?
#[tactic(auto, unfolding(crate::specs::Shown::plain, crate::specs::Shown::one_of))]
fn plain(place: Place, c: u8) -> bool
    ensures { result ≡ plain_byte place c }
{
    match c {
        b'\\' | b',' | b'=' => false,
        b':' | b' ' => inside(place),
        _ => printable(c),
    }
}

#[tactic(auto, unfolding(crate::specs::Shown::hex_digit))]
fn digit(d: u8) -> u8
    requires { d < 16 }
    ensures { result ≡ hex_digit d }
{
    if d < 10 {
        return b'0' + d;
    }
    b'a' - 10 + d
}

// A byte: as it is, or as two hexadecimal digits after \x.
#[tactic(auto, unfolding(crate::specs::Shown::shown_byte))]
pub fn shown_byte(place: Place, c: u8) -> Shown
    ensures { bytes_of result ≡ shown_byte place c }
{
    if plain(place, c) {
        return Shown::Plain(c);
    }
    Shown::Escaped([b'\\', b'x', digit(c / BASE), digit(c % BASE)])
}

// Where byte `i` of a value of `n` bytes stands.
#[tactic(auto, unfolding(crate::specs::Shown::place_in))]
pub fn place_in(i: usize, n: usize) -> Place
    requires { i < n }
    ensures { result ≡ place_in i n }
{
    if i == 0 || i + 1 == n {
        return Place::Edge;
    }
    Place::Inside
}
