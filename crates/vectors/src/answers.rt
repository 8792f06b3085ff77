// The answer to one vector.
ghost use Rattle.std.specs.Prelude.{ℕ, ◌≤◌};

use blocks::read::{RepresentationPlace, check_block, read_representation};
use fields::read::check_list;
use instructions::read::{InstructionPlace, read_for_decoder, read_for_encoder};
use integers::answer::{self, Read};
use integers::byte::wide;
use integers::integer::WireInt;
use show::{because, bytes, judged, list, name, next, number, refusal, string, words};
use stream_lists::stream_list::read_list;
use wire::text::{NAME_LIMIT, VALUE_LIMIT, read_string};

// The values of a byte.
const BYTE: u32 = 256;

pub fn answer(kind: u8, width: u8, s: &[u8]) {
    match kind {
        b'i' => integer(width, s),
        b'w' => written(width, s),
        b'n' => string_read(s, NAME_LIMIT),
        b'v' => string_read(s, VALUE_LIMIT),
        b'l' => list_read(s),
        b'd' => instruction(s, read_for_decoder(s)),
        b'e' => instruction(s, read_for_encoder(s)),
        b'b' => block(s),
        b'f' => judged(check_list(s)),
        _ => words(b"?"),
    }
}

// The prefix width that a digit says: 1 to 7, and 8 for any other character.
fn width_of(digit: u8) -> u32
    ensures { (1 ≤ result) × (result ≤ 8) }
{
    match digit {
        b'1'..=b'7' => u32::from(digit - b'0'),
        _ => 8,
    }
}

// An integer read.
fn integer(width: u8, s: &[u8]) {
    let r = WireInt::read(s, 0, width_of(width));
    let Ok((n, after)) = r else {
        refusal(answer::number(&r));
        return;
    };
    number(b"value ", n.value as u64);
    next(after);
}

// An integer written: a byte with the bits above the prefix, then the value in four bytes, the highest first.
fn written(width: u8, s: &[u8]) {
    let &[top, a, b, c, d] = s else {
        return;
    };
    write(width_of(width), wide(top), u32::from_be_bytes([a, b, c, d]));
}

// Nothing for a value that is too large, or where the bits `top` are not above the prefix.
fn write(width: u32, top: u32, value: u32)
    requires { (width ≤ 8) × (top ≤ 255) }
{
    if WireInt::LARGEST < value {
        return;
    }
    let full = 1u32 << width;
    if BYTE - top < full {
        return;
    }
    let mut out = [0u8; 8];
    let n = WireInt::new(value);
    let end = n.write(&mut out, 0, width, top);
    bytes(&out[..end]);
}

fn string_read(s: &[u8], limit: usize)
    requires { limit ≤ 2047 }
{
    let r = read_string(s, 0, limit);
    let Ok((place, after)) = r else {
        refusal(answer::number(&r));
        return;
    };
    string(b"string ", s, place);
    next(after);
}

fn list_read(s: &[u8]) {
    match read_list(s, 0) {
        Ok((place, after)) => {
            list(b"horizon ", s, place);
            next(after);
        }
        Err(why) => because(why),
    }
}

fn instruction(s: &[u8], r: Read<InstructionPlace>) {
    match r {
        Ok((place, taken)) => {
            instruction_found(s, place);
            next(taken);
        }
        Err(why) => because(why),
    }
}

fn instruction_found(s: &[u8], place: InstructionPlace) {
    match place {
        InstructionPlace::Insert(index, n, value) => {
            number(b"insert ", index.value as u64);
            name(s, n);
            string(b" value ", s, value);
        }
        InstructionPlace::Delete(index, nontrailer, trailer) => {
            number(b"delete ", index.value as u64);
            list(b" horizon ", s, nontrailer);
            list(b", horizon ", s, trailer);
        }
        InstructionPlace::Acknowledge(index) => number(b"acknowledge ", index.value as u64),
    }
}

// A whole block: its representations, if it has no refusal, and the answer.
fn block(s: &[u8]) {
    let r = check_block(s);
    if r.is_ok() {
        representations(s);
    }
    judged(r);
}

// The reading ends at the end of the bytes.
fn representations(s: &[u8]) {
    // No step is counted, so `for` has none to take: where a representation ends says its reader.
    let mut at: usize = 0;
    while let Ok((place, after)) = read_representation(s, at) {
        representation(s, place);
        at = after;
    }
}

fn representation(s: &[u8], place: RepresentationPlace) {
    match place {
        RepresentationPlace::Indexed(index) => number(b"indexed ", index.value as u64),
        RepresentationPlace::Literal(flag, n, value) => {
            number(b"literal ", flag as u64);
            name(s, n);
            string(b" value ", s, value);
        }
    }
    words(b"; ");
}
