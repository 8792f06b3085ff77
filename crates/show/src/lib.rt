// What was read, written to the standard output: what the programs share. No library that a host links uses it.
#![tactic(auto)]

ghost use Rattle.std.specs.Prelude.{◌≡◌, true, ℕ, ◌≤◌};
ghost use Rattle.wire.specs.Text.{InString};
ghost use Rattle.stream_lists.specs.StreamList.{horizon_limit};
ghost use Rattle.show.specs.Answers.{judged_number};

use integers::answer::{DONE, Refusal};
use stream_lists::stream_list::{HORIZON_LIMIT, ListPlace, read_delta};
use unpacking::unpack::unpacked_size;
use wire::name::NamePlace;
use wire::text::StringPlace;

// The longest string that is shown, and the most bytes that a packed one takes.
const SHOWN: usize = 256;

const PACKED_LIMIT: usize = 8_188;

pub fn words(text: &[u8]) {
    io::write_all(1, text);
}

// A number, after what it is.
pub fn number(label: &[u8], n: u64) {
    words(label);
    io::print_decimal(1, n);
}

pub fn refusal(n: u8) {
    number(b"answer ", n as u64);
}

pub fn because(why: Refusal) {
    refusal(why.number());
}

// The number of the answer to what is only judged.
fn judged_number(r: Result<(), Refusal>) -> u8
    ensures { result ≡ judged_number r }
{
    r.map_or_else(Refusal::number, |()| DONE)
}

// The answer to what is only judged.
pub fn judged(r: Result<(), Refusal>) {
    refusal(judged_number(r));
}

pub fn next(n: usize) {
    number(b" next ", n as u64);
}

// Bytes in hexadecimal.
pub fn bytes(s: &[u8]) {
    for &b in s {
        io::print_hex(1, b as u64, 2);
    }
}

// Is a string there, whole and of the length that its place tells? Every string that was read is.
fn is_there(s: &[u8], place: StringPlace) -> bool
    ensures { result ≡ true → InString s.now place }
{
    let start = place.start;
    let size = place.size;
    if s.len() < start {
        return false;
    }
    if s.len() - start < size {
        return false;
    }
    if !place.packed {
        return size == place.length;
    }
    if PACKED_LIMIT < size {
        return false;
    }
    let u = unpacked_size(s, start, start + size);
    if !u.whole {
        return false;
    }
    u.count == place.length
}

// The bytes of a string of at most `SHOWN` bytes that is there.
pub fn string(label: &[u8], s: &[u8], place: StringPlace) {
    words(label);
    if SHOWN < place.length(s) {
        words(b"long");
        return;
    }
    if !is_there(s, place) {
        words(b"outside");
        return;
    }
    let mut text = [0u8; SHOWN];
    let end = place.copy(s, &mut text, 0);
    bytes(&text[..end]);
}

pub fn name(s: &[u8], place: NamePlace) {
    match place {
        NamePlace::Index(index) => number(b" name index ", index.value as u64),
        NamePlace::Text(text) => string(b" name ", s, text),
    }
}

// The horizon of a list, and its streams where the horizon is in its range, as that of every list that was read is.
pub fn list(label: &[u8], s: &[u8], place: ListPlace) {
    number(label, place.horizon as u64);
    words(b" streams");
    if place.horizon <= HORIZON_LIMIT {
        streams(s, place);
    }
}

fn streams(s: &[u8], place: ListPlace)
    requires { place.horizon ≤ horizon_limit }
{
    let mut last = place.horizon;
    let mut at = place.deltas;
    let count = place.count;
    for _ in 0..count {
        let r = read_delta(s, at, last);
        let Ok((stream, after)) = r else {
            return;
        };
        last = stream.value as u32;
        number(b" ", last as u64);
        at = after;
    }
}
