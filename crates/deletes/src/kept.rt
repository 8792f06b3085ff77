// The decoder's deletes: kept in order of arrival with their lists, and dropped.
ghost use Rattle.std.specs.Prelude.{◌≡◌, ℕ, ◌+◌, ◌≤◌, ◌<◌, length};
ghost use Rattle.memory.specs.Bytes.{overlay};
ghost use Rattle.stream_lists.specs.StreamList.{InList, list_of};
ghost use Rattle.state.specs.Layout.{front_length, decoder_length, count_of, delete_count};
ghost use Rattle.state.specs.DecoderState.{streams_bytes, list_bytes};
ghost use Rattle.deletes.specs.Deletes.{appended, renumbered, Dropping, dropped};

use columns::column::lower;
use integers::number::TableIndex;
use memory::copy::{move_down, put_zeros};
use state::head::{count_of, delete_count, put_delete_count};
use state::kept::{
    LISTED_STREAM, listed_place, nontrailer_list, put_delete_index, put_horizon, put_listed,
    put_listed_count, trailer_list,
};
use state::layout::{DELETE_LENGTH, LISTED_BYTES, STATUSES, delete_place};
use state::row::put_status;
use stream_lists::stream_list::{ListPlace, read_delta};

// Stores the streams that the list's deltas say.
fn put_streams(m: &mut [u8], at: usize, s: &[u8], list: ListPlace)
    requires in_list { InList s.now list }
    requires at_in_bounds { at + 32 ≤ length m.old }
    ensures { m.new ≡ overlay m.old at (streams_bytes (list_of s.now list).streams) }
{
    let count = list.count as usize;
    let mut last = list.horizon;
    let mut place = list.deltas;
    for i in 0..count {
        let Ok((stream, next)) = read_delta(s, place, last) else {
            return;
        };
        put_listed(m, at, i, stream);
        last = stream.value as u32;
        place = next;
    }
}

// Stores a stream list: horizon, count, its streams, and zeros in the unused places.
fn put_list(m: &mut [u8], at: usize, s: &[u8], list: ListPlace)
    requires in_list { InList s.now list }
    requires at_le_decoder_length { (at ≤ decoder_length) × (at + 36 ≤ length m.old) }
    ensures { m.new ≡ overlay m.old at (list_bytes (list_of s.now list)) }
{
    let count = list.count as usize;
    put_horizon(m, at, list.horizon as u16);
    put_listed_count(m, at, list.count as u16);
    let streams = listed_place(at);
    put_streams(m, streams, s, list);
    put_zeros(
        m,
        streams + LISTED_STREAM * count,
        LISTED_BYTES - LISTED_STREAM * count,
    );
}

// Keeps a delete of the entry in row `place`, whose lists stand in `s`.
pub fn append_delete(
    m: &mut [u8],
    place: usize,
    index: TableIndex,
    s: &[u8],
    nontrailer: ListPlace,
    trailer: ListPlace,
)
    requires place_bound { (place < 128) × (delete_count m.old < 256) × (decoder_length ≤ length m.old) }
    requires in_list { (InList s.now nontrailer) × (InList s.now trailer) }
    ensures { m.new ≡ appended m.old place
        (record { index = index.value; nontrailer = list_of s.now nontrailer; trailer = list_of s.now trailer }) }
{
    let n = delete_count(m);
    let k = n as usize;
    put_delete_index(m, k, index);
    put_list(m, nontrailer_list(k), s, nontrailer);
    put_list(m, trailer_list(k), s, trailer);
    put_status(m, place, n + 1);
    put_delete_count(m, n + 1);
}

// Rows that point behind a delete that goes point one place lower.
fn renumber(m: &mut [u8], status: u16)
    requires { (count_of m.old ≤ 128) × (front_length ≤ length m.old) }
    ensures { m.new ≡ renumbered status (count_of m.old) m.old }
{
    let count = count_of(m) as usize;
    lower(m, STATUSES, count, status);
}

// Drops delete `k`: the deletes behind it close up.
pub fn drop_delete(m: &mut [u8], k: usize)
    requires { Dropping m.old k }
    ensures { m.new ≡ dropped m.old k }
{
    let n = delete_count(m) as usize;
    move_down(
        m,
        delete_place(k),
        delete_place(k + 1),
        DELETE_LENGTH * (n - (k + 1)),
    );
    put_delete_count(m, (n - 1) as u16);
    renumber(m, (k + 1) as u16);
}
