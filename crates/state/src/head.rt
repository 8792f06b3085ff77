// The numbers of the head: limit, held size, entry count and number of deletes.
ghost use Rattle.std.specs.Prelude.{◌≡◌, ℕ, ◌≤◌, length};
ghost use Rattle.memory.specs.Bytes.{overlay};
ghost use Rattle.memory.specs.Numbers.{number_bytes};
ghost use Rattle.state.specs.Layout.{head_length, limit_place, held_place, count_place, delete_count_place, limit_of, held_of, count_of, delete_count};

use memory::number::{put_u16, u16_at};

pub const ROLE: usize = 0;

pub const EDITION: usize = 1;

const LIMIT: usize = 2;

const HELD: usize = 4;

const COUNT: usize = 6;

const DELETES: usize = 8;

// Zeros to the head's end.
pub const HEAD_REST: usize = 10;

pub const HEAD_ZEROS: usize = 54;

// How much the table may hold.
pub fn limit_of(m: &[u8]) -> u16
    requires { head_length ≤ length m.now }
    ensures { result ≡ limit_of m.now }
{
    u16_at(m, LIMIT)
}

// The sum of the sizes of all entries.
pub fn held_of(m: &[u8]) -> u16
    requires { head_length ≤ length m.now }
    ensures { result ≡ held_of m.now }
{
    u16_at(m, HELD)
}

// How many entries there are.
pub fn count_of(m: &[u8]) -> u16
    requires { head_length ≤ length m.now }
    ensures { result ≡ count_of m.now }
{
    u16_at(m, COUNT)
}

// How many deletes a decoder keeps; 0 at an encoder.
pub fn delete_count(m: &[u8]) -> u16
    requires { head_length ≤ length m.now }
    ensures { result ≡ delete_count m.now }
{
    u16_at(m, DELETES)
}

pub fn put_limit(m: &mut [u8], limit: u16)
    requires { head_length ≤ length m.old }
    ensures { m.new ≡ overlay m.old limit_place (number_bytes 2 limit) }
{
    put_u16(m, LIMIT, limit);
}

pub fn put_held(m: &mut [u8], held: u16)
    requires { head_length ≤ length m.old }
    ensures { m.new ≡ overlay m.old held_place (number_bytes 2 held) }
{
    put_u16(m, HELD, held);
}

pub fn put_count(m: &mut [u8], count: u16)
    requires { head_length ≤ length m.old }
    ensures { m.new ≡ overlay m.old count_place (number_bytes 2 count) }
{
    put_u16(m, COUNT, count);
}

pub fn put_delete_count(m: &mut [u8], count: u16)
    requires { head_length ≤ length m.old }
    ensures { m.new ≡ overlay m.old delete_count_place (number_bytes 2 count) }
{
    put_u16(m, DELETES, count);
}
