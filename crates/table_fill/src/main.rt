// Fills a table with 128 entries of size 32, empties it in another order and fills it again; then the same with text, up to the limit. After each
// step the head, the columns and the text in use are printed. `stdout` holds what must be printed; tests/table_fill makes it from docs/STATE.md.
#![tactic(auto)]

ghost use Rattle.std.specs.Prelude.{ℕ, ◌≤◌, length};
ghost use Rattle.state.specs.Layout.{front_length};

use integers::number::TableIndex;
use show::{bytes, number, words};
use state::head::{count_of, held_of};
use state::layout::{
    DECODER, DECODER_LENGTH, ENTRY_SIZE, INDEXES, MOST_HELD, NAME_LENGTHS, NONTRAILER_MARKS,
    OFFSETS, STATUSES, TEXT,
};
use state::row::{INDEX, NAME_LENGTH, OFFSET, STATUS};
use state_test::decoder::forms_decoder;
use table::remove::remove;
use table::start::start;
use table_insert::insert::insert;
use table_rows::fits;
use table_search::find::find;

// How many indexes are used, from the first on.
const USED: u32 = 128;

fn main() {
    let mut memory = io::large_buffer();
    run(&mut memory);
}

fn run(m: &mut [u8]) {
    if m.len() < DECODER_LENGTH {
        return;
    }
    start(m, DECODER, MOST_HELD);
    dump(m);
    sizes_of_32(m);
    with_text(m);
}

// 128 entries of size 32 put in, taken out in another order, and put in again.
fn sizes_of_32(m: &mut [u8]) {
    fill(m, 37, USED, 0);
    dump(m);
    empty(m, 53, 77);
    dump(m);
    empty(m, 53, USED);
    dump(m);
    fill(m, 91, USED, 0);
    dump(m);
}

// The same with text, up to the limit.
fn with_text(m: &mut [u8]) {
    empty(m, 5, USED);
    fill(m, 59, USED, 1);
    dump(m);
    empty(m, 29, 60);
    fill(m, 3, USED, 2);
    dump(m);
}

// Puts `n` entries in, each index `step` after the one before it, around those that are used. `text` 0 gives entries of size 32.
fn fill(m: &mut [u8], step: u32, n: u32, text: u32) {
    let source: &[u8] = b"ABCDEFGHIJKLMNOPQRSTUVWXYZ012345";
    let mut k: u32 = 0;
    for _ in 0..n {
        let name = (text % 8 * k % 17) as usize;
        let value = (text % 8 * (k + 3) % 14) as usize;
        put(
            m,
            TableIndex::new(TableIndex::FIRST + k),
            &source[..name],
            &source[..value],
        );
        k = (k + step % USED) % USED;
    }
}

// Takes `n` entries out, likewise.
fn empty(m: &mut [u8], step: u32, n: u32) {
    let mut k: u32 = 0;
    for _ in 0..n {
        take(m, TableIndex::new(TableIndex::FIRST + k));
        k = (k + step % USED) % USED;
    }
}

// Puts an entry in, where the index is vacant and the limit is kept; else says so. An entry has at least size 32, so a place is left then.
fn put(m: &mut [u8], index: TableIndex, name: &[u8], value: &[u8])
    requires { (62 ≤ index.value) × (length name.now ≤ 32) × (length value.now ≤ 32) }
{
    if !forms_decoder(m) {
        words(b"no state\n");
        return;
    }
    let f = find(m, index);
    let Err(place) = f else {
        line(b"held ", index.value);
        return;
    };
    if !fits(m, name.len() + value.len() + ENTRY_SIZE) {
        line(b"over the limit ", index.value);
        return;
    }
    insert(m, place, index, name, value);
}

// Takes an entry out, where there is one.
fn take(m: &mut [u8], index: TableIndex)
    requires { 62 ≤ index.value }
{
    if !forms_decoder(m) {
        words(b"no state\n");
        return;
    }
    let f = find(m, index);
    let Ok(place) = f else {
        line(b"vacant ", index.value);
        return;
    };
    remove(m, place);
}

// The head, the columns in use and the text in use.
fn dump(m: &[u8]) {
    if !forms_decoder(m) {
        words(b"no state\n");
        return;
    }
    line_of(b"head ", &m[..NONTRAILER_MARKS]);
    let count = count_of(m) as usize;
    columns(m, count);
    let end = TEXT + (held_of(m) as usize) - ENTRY_SIZE * count;
    line_of(b"text ", &m[TEXT..end]);
}

// The columns of `count` rows.
fn columns(m: &[u8], count: usize)
    requires { (count ≤ 128) × (front_length ≤ length m.now) }
{
    line_of(b"indexes ", &m[INDEXES - INDEX..INDEXES + INDEX * count]);
    line_of(b"offsets ", &m[OFFSETS..OFFSETS + OFFSET * (count + 1)]);
    line_of(
        b"names ",
        &m[NAME_LENGTHS..NAME_LENGTHS + NAME_LENGTH * count],
    );
    line_of(b"statuses ", &m[STATUSES..STATUSES + STATUS * count]);
}

// A line: a label and an index.
fn line(label: &[u8], index: u32) {
    number(label, index as u64);
    words(b"\n");
}

// A line: a label and bytes in hexadecimal.
fn line_of(label: &[u8], s: &[u8]) {
    words(label);
    bytes(s);
    words(b"\n");
}
