// The numbers of a row, each in its column: the entry's index, where its text stands, how long its name is, and its status.
ghost use Rattle.std.specs.Prelude.{◌≡◌, ℕ, ◌+◌, ◌-◌, ◌≤◌, ◌<◌, length};
ghost use Rattle.memory.specs.Bytes.{overlay};
ghost use Rattle.memory.specs.Numbers.{number_bytes};
ghost use Rattle.state.specs.Layout.{text_place, indexes_place, offsets_place, status_place, before_first, index_at, index_before, offset_at, name_length_at, text_length_at, value_length_at, status_at};

use crate::layout::{INDEXES, NAME_LENGTHS, OFFSETS, STATUSES, TEXT};
use memory::number::{put_u16, put_u32, u16_at, u32_at};

// The bytes of a number in each column.
pub const INDEX: usize = 4;

pub const OFFSET: usize = 2;

pub const NAME_LENGTH: usize = 1;

pub const STATUS: usize = 2;

// What stands in front of the first index: below every index of the table.
pub const BEFORE_FIRST: u32 = 61;

// What an encoder's row has as status where its entry is under deletion.
pub const DELETED: u16 = 1;

// The entry's index.
pub fn index_at(m: &[u8], i: usize) -> u32
    requires { (i < 128) × (text_place ≤ length m.now) }
    ensures { result ≡ index_at m.now i }
{
    u32_at(m, INDEXES + INDEX * i)
}

// The index of the row before it; in front of the first row stands 61.
pub fn index_before(m: &[u8], i: usize) -> u32
    requires { (i ≤ 128) × (text_place ≤ length m.now) }
    ensures { result ≡ index_before m.now i }
{
    u32_at(m, INDEXES - INDEX + INDEX * i)
}

// Where its name and its value stand in the text; of the place behind the last row, where the text ends.
pub fn offset_at(m: &[u8], i: usize) -> u16
    requires { (i ≤ 128) × (text_place ≤ length m.now) }
    ensures { result ≡ offset_at m.now i }
{
    u16_at(m, OFFSETS + OFFSET * i)
}

fn wide(x: u8) -> u16
    ensures { (result ≡ x) × (result < 256) }
{
    x as u16
}

pub fn name_length_at(m: &[u8], i: usize) -> u16
    requires { (i < 128) × (text_place ≤ length m.now) }
    ensures { (result ≡ name_length_at m.now i) × (result < 256) }
{
    wide(m[NAME_LENGTHS + i])
}

// The same as the byte that it is, for comparing.
pub fn name_byte_at(m: &[u8], i: usize) -> u8
    requires { (i < 128) × (text_place ≤ length m.now) }
    ensures { result ≡ name_length_at m.now i }
{
    m[NAME_LENGTHS + i]
}

// The bytes of its name and its value. Its text ends where that of the next row starts.
pub fn text_length_at(m: &[u8], i: usize) -> usize
    requires { (i < 128) × (text_place ≤ length m.now) × (offset_at m.now i ≤ offset_at m.now (i + 1)) }
    ensures { (result ≡ text_length_at m.now i) × (result < 65536) }
{
    (offset_at(m, i + 1) as usize) - (offset_at(m, i) as usize)
}

pub fn value_length_at(m: &[u8], i: usize) -> u16
    requires { (i < 128) × (text_place ≤ length m.now) × (offset_at m.now i + name_length_at m.now i ≤ offset_at m.now (i + 1)) }
    ensures { result ≡ value_length_at m.now i }
{
    offset_at(m, i + 1) - offset_at(m, i) - name_length_at(m, i)
}

// At the decoder 0, or the place of the entry's delete and one; at the encoder 1 where the entry is under deletion, else 0. A number, and no enum: the host's
// memory has it so (docs/STATE.md).
pub fn status_at(m: &[u8], i: usize) -> u16
    requires { (i < 128) × (text_place ≤ length m.now) }
    ensures { result ≡ status_at m.now i }
{
    u16_at(m, STATUSES + STATUS * i)
}

// The place of the entry's name in memory; its value stands behind it.
pub fn text_at(m: &[u8], i: usize) -> usize
    requires { (i ≤ 128) × (text_place ≤ length m.now) }
    ensures { (result ≡ text_place + offset_at m.now i) × (result < 67782) }
{
    TEXT + (offset_at(m, i) as usize)
}

pub fn put_status(m: &mut [u8], i: usize, status: u16)
    requires { (i < 128) × (text_place ≤ length m.old) }
    ensures { m.new ≡ overlay m.old (status_place i) (number_bytes 2 status) }
{
    put_u16(m, STATUSES + STATUS * i, status);
}

// The columns of a table without rows: what stands in front of the first index, and that the text ends where it starts.
pub fn put_no_rows(m: &mut [u8])
    requires { text_place ≤ length m.old }
    ensures { m.new ≡ overlay (overlay m.old indexes_place (number_bytes 4 before_first)) offsets_place (number_bytes 2 0) }
{
    put_u32(m, INDEXES - INDEX, BEFORE_FIRST);
    put_u16(m, OFFSETS, 0);
}
