// A delete that a decoder keeps: the entry's index and two stream lists, each with a horizon, a count and 16 places for streams.
ghost use Rattle.std.specs.Prelude.{◌≡◌, ℕ, ◌+◌, ◌*◌, ◌≤◌, ◌<◌, length};
ghost use Rattle.memory.specs.Bytes.{overlay};
ghost use Rattle.memory.specs.Numbers.{number, number_bytes};
ghost use Rattle.state.specs.Layout.{decoder_length, delete_place, nontrailer_list, trailer_list, delete_index_at, horizon_at, listed_count_at, listed_place};

use crate::layout::delete_place;
use integers::number::{StreamNumber, TableIndex};
use memory::number::{put_u16, put_u32, u16_at, u32_at};

const NONTRAILER: usize = 4;

const TRAILER: usize = 40;

// Inside a list; the horizon stands first.
const LISTED_COUNT: usize = 2;

const LISTED: usize = 4;

pub const LISTED_STREAM: usize = 2;

// The index of the entry that delete `k` deletes.
pub fn delete_index_at(m: &[u8], k: usize) -> u32
    requires { (k < 256) × (decoder_length ≤ length m.now) }
    ensures { result ≡ delete_index_at m.now k }
{
    u32_at(m, delete_place(k))
}

pub fn put_delete_index(m: &mut [u8], k: usize, index: TableIndex)
    requires { (k < 256) × (decoder_length ≤ length m.old) }
    ensures { m.new ≡ overlay m.old (delete_place k) (number_bytes 4 index.value) }
{
    put_u32(m, delete_place(k), index.value);
}

// Where its two lists stand.
pub fn nontrailer_list(k: usize) -> usize
    requires { k < 256 }
    ensures { result ≡ nontrailer_list k }
{
    delete_place(k) + NONTRAILER
}

pub fn trailer_list(k: usize) -> usize
    requires { k < 256 }
    ensures { result ≡ trailer_list k }
{
    delete_place(k) + TRAILER
}

// The horizon of the list at the place `at`.
pub fn horizon_at(m: &[u8], at: usize) -> u16
    requires { at + 2 ≤ length m.now }
    ensures { result ≡ horizon_at m.now at }
{
    u16_at(m, at)
}

// How many streams it lists.
pub fn listed_count_at(m: &[u8], at: usize) -> u16
    requires { at + 4 ≤ length m.now }
    ensures { result ≡ listed_count_at m.now at }
{
    u16_at(m, at + LISTED_COUNT)
}

// Where the first of them stands; each takes two bytes.
pub fn listed_place(at: usize) -> usize
    requires { at ≤ 65536 }
    ensures { result ≡ listed_place at }
{
    at + LISTED
}

// Stream `i` of those that stand from the place `listed` on.
pub fn listed_at(m: &[u8], listed: usize, i: usize) -> u16
    requires { listed + 2 * i + 2 ≤ length m.now }
    ensures { result ≡ number 2 m.now (listed + 2 * i) }
{
    u16_at(m, listed + LISTED_STREAM * i)
}

pub fn put_listed(m: &mut [u8], listed: usize, i: usize, stream: StreamNumber)
    requires { listed + 2 * i + 2 ≤ length m.old }
    ensures { m.new ≡ overlay m.old (listed + 2 * i) (number_bytes 2 stream.value) }
{
    put_u16(m, listed + LISTED_STREAM * i, stream.value);
}

pub fn put_horizon(m: &mut [u8], at: usize, horizon: u16)
    requires { at + 2 ≤ length m.old }
    ensures { m.new ≡ overlay m.old at (number_bytes 2 horizon) }
{
    put_u16(m, at, horizon);
}

pub fn put_listed_count(m: &mut [u8], at: usize, count: u16)
    requires { at + 4 ≤ length m.old }
    ensures { m.new ≡ overlay m.old (at + 2) (number_bytes 2 count) }
{
    put_u16(m, at + LISTED_COUNT, count);
}
