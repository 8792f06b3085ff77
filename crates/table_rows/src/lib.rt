// The rows of the table: put in and taken out, and the record of held size and count. Place and count, with their bounds, are no struct: each function asks for
// other bounds, since a row is put in at most at the end and taken out before it.
#![tactic(auto)]

ghost use Rattle.std.specs.Prelude.{◌≡◌, ℕ, ◌+◌, ◌-◌, ◌≤◌, ◌<◌, length, leb};
ghost use Rattle.state.specs.Layout.{front_length, head_length, limit_of, held_of, count_of};
ghost use Rattle.table_rows.specs.Rows.{offsets_opened, row_opened, offsets_closed, row_closed, recorded};

pub mod account;

use crate::account::{Account, after_insert, after_removal};
use columns::column::{close, open_u8, open_u16, open_u32, shift};
use integers::number::TableIndex;
use state::head::{count_of, held_of, limit_of, put_count, put_held};
use state::layout::{INDEXES, NAME_LENGTHS, OFFSETS, STATUSES};
use state::row::{INDEX, NAME_LENGTH, OFFSET, STATUS};

// An offset has two bytes.
const NUMBERS: u32 = 65_536;

// The text of a new row starts at `offset`; the texts behind it start `text` bytes later.
fn open_offsets(m: &mut [u8], place: usize, count: usize, offset: u16, text: u32)
    requires { (place ≤ count) × (count < 128) × (text ≤ 4096) × (front_length ≤ length m.old) }
    ensures { m.new ≡ offsets_opened m.old place count offset text }
{
    open_u16(m, OFFSETS, place, count + 1, offset);
    shift(m, OFFSETS + OFFSET * (place + 1), count + 1 - place, text);
}

// Puts a row in at `place` of `count` rows: the numbers behind it move up. Its entry has a name of `name` bytes and `text` bytes in all.
pub fn open_row(
    m: &mut [u8],
    place: usize,
    count: usize,
    index: TableIndex,
    offset: u16,
    name: u8,
    text: u32,
)
    requires { (place ≤ count) × (count < 128) × (text ≤ 4096) × (front_length ≤ length m.old) }
    ensures { m.new ≡ row_opened m.old place count index.value offset name text }
{
    // In front of the first index stands one more number.
    open_u32(m, INDEXES - INDEX, place + 1, count + 1, index.value);
    open_offsets(m, place, count, offset, text);
    open_u8(m, NAME_LENGTHS, place, count, name);
    open_u16(m, STATUSES, place, count, 0);
}

// The texts behind a row that goes start `text` bytes earlier.
fn close_offsets(m: &mut [u8], place: usize, count: usize, text: u32)
    requires { (place < count) × (count ≤ 128) × (text ≤ 4096) × (front_length ≤ length m.old) }
    ensures { m.new ≡ offsets_closed m.old place count text }
{
    close(m, OFFSETS, OFFSET, place, count + 1);
    shift(m, OFFSETS + OFFSET * place, count - place, NUMBERS - text);
}

// Takes the row at `place` of `count` rows out, which has `text` bytes of text: the numbers behind it close up.
pub fn close_row(m: &mut [u8], place: usize, count: usize, text: u32)
    requires { (place < count) × (count ≤ 128) × (text ≤ 4096) × (front_length ≤ length m.old) }
    ensures { m.new ≡ row_closed m.old place count text }
{
    close(m, INDEXES - INDEX, INDEX, place + 1, count + 1);
    close_offsets(m, place, count, text);
    close(m, NAME_LENGTHS, NAME_LENGTH, place, count);
    close(m, STATUSES, STATUS, place, count);
}

// Does an entry of this size stay within the limit?
pub fn fits(m: &[u8], size: usize) -> bool
    requires { (head_length ≤ length m.now) × (size < 65536) }
    ensures { result ≡ leb (held_of m.now + size) (limit_of m.now) }
{
    let account = Account {
        limit: limit_of(m),
        held: held_of(m),
        count: count_of(m),
    };
    account.fits(size as u32)
}

// Brings the record up to date: an entry of this size was put in.
pub fn record_insert(m: &mut [u8], size: u16)
    requires { (front_length ≤ length m.old) × (held_of m.old + size < 65536) × (count_of m.old < 65535) }
    ensures { m.new ≡ recorded m.old (held_of m.old + size) (count_of m.old + 1) }
{
    let account = after_insert(limit_of(m), held_of(m), count_of(m), size);
    put_held(m, account.held);
    put_count(m, account.count);
}

// Brings the record up to date: an entry of this size was taken out.
pub fn record_removal(m: &mut [u8], size: u16)
    requires { (front_length ≤ length m.old) × (size ≤ held_of m.old) × (1 ≤ count_of m.old) }
    ensures { m.new ≡ recorded m.old (held_of m.old - size) (count_of m.old - 1) }
{
    let account = after_removal(limit_of(m), held_of(m), count_of(m), size);
    put_held(m, account.held);
    put_count(m, account.count);
}
