// Does lent memory form a decoder's state?
ghost use Rattle.std.specs.Prelude.{◌≡◌, ℕ, ◌+◌, ◌*◌, ◌<◌, ◌≤◌, ◌&&◌, length, ◌==◌};
ghost use Rattle.state.specs.Layout.{decoder_length, delete_count, offset_at, status_at};
ghost use Rattle.state.specs.Forms.{each, text_ok, status_ok, pointing, streams_ok, list_ok, deletes_ok, forms_decoder};

use crate::forms::{columns_ok, head_ok, text_ok};
use integers::number::{StreamNumber, TableIndex};
use memory::compare::zeros;
use state::head::{count_of, delete_count};
use state::kept::{
    LISTED_STREAM, delete_index_at, horizon_at, listed_at, listed_count_at, listed_place,
    nontrailer_list, trailer_list,
};
use state::layout::{
    DECODER, DECODER_LENGTH, DELETE_PLACES, LISTED_BYTES, MOST_HORIZON, MOST_LISTED,
};
use state::row::{index_at, name_length_at, offset_at, status_at};

// Is the status of row `i` 0, or does it point at a delete with the row's index?
fn status_ok(m: &[u8], i: usize) -> bool
    requires { (i < 128) × (delete_count m.now ≤ 256) × (decoder_length ≤ length m.now) }
    ensures { result ≡ status_ok m.now i }
{
    let status = status_at(m, i) as usize;
    if status == 0 {
        return true;
    }
    if (delete_count(m) as usize) < status {
        return false;
    }
    delete_index_at(m, status - 1) == index_at(m, i)
}

// Where no delete is kept, one pass over the rows: texts, and no status.
fn live_rows(m: &[u8], count: usize) -> bool
    requires { (count ≤ 128) × (offset_at m.now 0 ≡ 0) × (decoder_length ≤ length m.now) }
    ensures { result ≡ each (λ i. text_ok m.now i && status_at m.now i == 0) count 0 }
{
    let mut ok = true;
    for i in 0..count {
        let text = text_ok(offset_at(m, i), offset_at(m, i + 1), name_length_at(m, i));
        ok = ok & (text & (status_at(m, i) == 0));
    }
    ok
}

// The texts alone.
fn texts(m: &[u8], count: usize) -> bool
    requires { (count ≤ 128) × (offset_at m.now 0 ≡ 0) × (decoder_length ≤ length m.now) }
    ensures { result ≡ each (text_ok m.now) count 0 }
{
    let mut ok = true;
    for i in 0..count {
        ok = ok & text_ok(offset_at(m, i), offset_at(m, i + 1), name_length_at(m, i));
    }
    ok
}

// Does each status that is not 0 point at a delete with the row's index, and as many do as there are deletes?
fn statuses_ok(m: &[u8], count: usize) -> bool
    requires { (count ≤ 128) × (delete_count m.now ≤ 256) × (decoder_length ≤ length m.now) }
    ensures { result ≡ (each (status_ok m.now) count 0 && (pointing m.now count 0) == delete_count m.now) }
{
    let mut pointed: usize = 0;
    for i in 0..count {
        if !status_ok(m, i) {
            return false;
        }
        if status_at(m, i) != 0 {
            pointed += 1;
        }
    }
    pointed == (delete_count(m) as usize)
}

// Texts and statuses of the rows.
fn rows_form(m: &[u8], count: usize) -> bool
    requires { (count ≤ 128) × (offset_at m.now 0 ≡ 0) × (delete_count m.now ≤ 256) × (decoder_length ≤ length m.now) }
    ensures { result ≡ (each (text_ok m.now) count 0 && (each (status_ok m.now) count 0 && (pointing m.now count 0) == delete_count m.now)) }
{
    if delete_count(m) == 0 {
        return live_rows(m, count);
    }
    if !texts(m, count) {
        return false;
    }
    statuses_ok(m, count)
}

// Are the `k` streams from the place `at` on in order after `last`?
fn streams_ok(m: &[u8], k: usize, at: usize, last: u16) -> bool
    requires { at + 2 * k ≤ length m.now }
    ensures { result ≡ streams_ok m.now k at last }
{
    let mut before = last;
    for i in 0..k {
        let stream = listed_at(m, at, i);
        if stream <= before {
            return false;
        }
        if StreamNumber::LAST < stream {
            return false;
        }
        before = stream;
    }
    true
}

// Is the stream list at the place `at` in range and in order, and are its unused places 0?
fn list_ok(m: &[u8], at: usize) -> bool
    requires { (at ≤ 65536) × (at + 36 ≤ length m.now) }
    ensures { result ≡ list_ok m.now at }
{
    let horizon = horizon_at(m, at);
    if MOST_HORIZON < horizon {
        return false;
    }
    let count = listed_count_at(m, at) as usize;
    if MOST_LISTED < count {
        return false;
    }
    let listed = listed_place(at);
    // Most lists are empty: then the compiler knows how many zeros there are.
    if count == 0 {
        return zeros(m, listed, LISTED_BYTES);
    }
    if !streams_ok(m, count, listed, horizon) {
        return false;
    }
    zeros(
        m,
        listed + LISTED_STREAM * count,
        LISTED_BYTES - LISTED_STREAM * count,
    )
}

// One pass over the deletes.
fn deletes_ok(m: &[u8]) -> bool
    requires { (delete_count m.now ≤ 256) × (decoder_length ≤ length m.now) }
    ensures { result ≡ deletes_ok m.now (delete_count m.now) 0 }
{
    let n = delete_count(m) as usize;
    for k in 0..n {
        if !list_ok(m, nontrailer_list(k)) {
            return false;
        }
        if !list_ok(m, trailer_list(k)) {
            return false;
        }
    }
    true
}

pub fn forms_decoder(m: &[u8]) -> bool
    ensures { result ≡ forms_decoder m.now }
{
    if !head_ok(m, DECODER, DECODER_LENGTH) {
        return false;
    }
    if DELETE_PLACES < (delete_count(m) as usize) {
        return false;
    }
    let count = count_of(m) as usize;
    if !columns_ok(m, TableIndex::LAST, count) {
        return false;
    }
    if !rows_form(m, count) {
        return false;
    }
    deletes_ok(m)
}
