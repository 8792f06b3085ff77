// A stream number and a table index are different things, and neither can stand for the other. Each is made by its constructor, which asks for its range.
// No ghost field has the range (tried): definitions make a stream or an index of any number (`read_delta`, `turn_of`, `read_name`), as the wire can say it, and would
// have to prove the range there. So functions that rest on it ask for it.
ghost use Rattle.std.specs.Prelude.{◌≡◌, ◌<◌, ◌≤◌};
ghost use Rattle.integers.specs.Integer.{largest, last_stream};

use crate::integer::WireInt;

// A message stream, 0 to 4,095.
#[derive(Clone, Copy)]
pub struct StreamNumber {
    pub value: u16,
}

impl StreamNumber {
    pub const LAST: u16 = 4_095;

    pub fn new(value: u16) -> StreamNumber
        requires { value ≤ last_stream }
        ensures { result ≡ record { value = value } }
    {
        StreamNumber { value }
    }
}

// An index of the static table, 1 to 61, or of the header table, 62 to 2^27 - 1.
#[derive(Clone, Copy)]
pub struct TableIndex {
    pub value: u32,
}

impl TableIndex {
    // The lowest index of the header table.
    pub const FIRST: u32 = 62;

    pub const LAST: u32 = WireInt::LARGEST;

    pub fn new(value: u32) -> TableIndex
        requires { (1 ≤ value) × (value ≤ largest) }
        ensures { result ≡ record { value = value } }
    {
        TableIndex { value }
    }
}
