// What both ends ask of head and rows.
ghost use Rattle.std.specs.Prelude.{◌≡◌, ℕ, ◌+◌, ◌-◌, ◌<◌, ◌≤◌, true, ◌&&◌, length, nat_le};
ghost use Rattle.state.specs.Layout.{head_length, text_place};
ghost use Rattle.state.specs.Forms.{head_ok, each, index_ok, columns_ok};

use memory::compare::zeros;
use state::head::{EDITION, HEAD_REST, HEAD_ZEROS, ROLE, count_of, held_of, limit_of};
use state::layout::{ENTRY_SIZE, FEBRUARY, MOST_HELD, MOST_VALUE, PLACES};
use state::row::{BEFORE_FIRST, index_at, index_before, offset_at};
use std::num::wrapping_sub_u16;

pub fn head_ok(m: &[u8], role: u8, bytes: usize) -> bool
    requires { head_length ≤ bytes }
    ensures { result ≡ head_ok role bytes m.now }
{
    if m.len() < bytes {
        return false;
    }
    if m[ROLE] != role {
        return false;
    }
    if m[EDITION] != FEBRUARY {
        return false;
    }
    if MOST_HELD < limit_of(m) {
        return false;
    }
    if MOST_HELD < held_of(m) {
        return false;
    }
    if PLACES < (count_of(m) as usize) {
        return false;
    }
    zeros(m, HEAD_REST, HEAD_ZEROS)
}

// Is each index above the one before it? The loop has no way out, so that the compiler compares several at a time; so have those over the texts.
fn rising(m: &[u8], count: usize) -> bool
    requires { (count ≤ 128) × (text_place ≤ length m.now) }
    ensures { result ≡ each (index_ok m.now) count 0 }
{
    let mut ok = true;
    for i in 0..count {
        ok = ok & (index_before(m, i) < index_at(m, i));
    }
    ok
}

// Are the indexes in order, and does the text make up the held size?
pub fn columns_ok(m: &[u8], top: u32, count: usize) -> bool
    requires { (count ≤ 128) × (text_place ≤ length m.now) }
    ensures { result ≡ columns_ok m.now top count }
{
    if index_before(m, 0) != BEFORE_FIRST {
        return false;
    }
    if top < index_before(m, count) {
        return false;
    }
    if offset_at(m, 0) != 0 {
        return false;
    }
    if (offset_at(m, count) as usize) + ENTRY_SIZE * count != (held_of(m) as usize) {
        return false;
    }
    rising(m, count)
}

// Does a text from `start` to `end` stay within the table's, with room for the name and a value that is short enough? It starts within the table's, or
// another row has said no: then what is below 0 comes out far above a value's length.
pub fn text_ok(start: u16, end: u16, name: u16) -> bool
    ensures { (start ≤ 4096 → name < 256 → result ≡ (nat_le end 4096 && (nat_le (start + name) end && nat_le (end - start - name) 2047))) × (result ≡ true → end ≤ 4096) }
{
    (end <= MOST_HELD) & (wrapping_sub_u16(wrapping_sub_u16(end, start), name) <= MOST_VALUE)
}
