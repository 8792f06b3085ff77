// Representations read at a place of a block, and the reading of a whole block.
ghost use Rattle.std.specs.Prelude.{◌≡◌, ℕ, ◌<◌, length};
ghost use Rattle.integers.specs.Answers.{checked_number};
ghost use Rattle.blocks.specs.Reading.{block_answer, flag_of, read_indexed, read_literal, read_representation, read_block, block_checked};

use integers::answer::{Read, Refusal};
use integers::integer::WireInt;
use integers::number::TableIndex;
use wire::name::{NamePlace, read_name};
use wire::text::{StringPlace, VALUE_LIMIT, read_string};

// The most bytes that a block has.
pub const BLOCK_LIMIT: usize = 16_384;

// The first bit of an indexed representation, and the N bit of a literal, in the first byte.
pub const INDEXED: u8 = 128;

pub const NEVER_STORE: u8 = 64;

// A representation as it stands in a block.
#[derive(Drop)]
pub enum RepresentationPlace {
    Indexed(TableIndex),
    // The N bit, the name and the value.
    Literal(u8, NamePlace, StringPlace),
}

fn read_indexed(s: &[u8], at: usize) -> Read<RepresentationPlace>
    ensures { result ≡ read_indexed s.now at }
{
    let r = WireInt::read(s, at, WireInt::PREFIX7);
    let Ok((n, next)) = r else {
        return Err(r.unwrap_err());
    };
    let value = n.value;
    if value == 0 {
        return Err(Refusal::NotAllowed);
    }
    Ok((RepresentationPlace::Indexed(TableIndex::new(value)), next))
}

// The N bit of a literal's first byte. A byte and no `bool`: it is the first byte of a field in the host's list, which is 0 or 1.
pub fn flag_of(b: u8) -> u8
    ensures { result ≡ flag_of b }
{
    if b < NEVER_STORE { 0 } else { 1 }
}

pub fn read_literal(s: &[u8], at: usize) -> Read<RepresentationPlace>
    requires { at < length s.now }
    ensures { result ≡ read_literal s.now at }
{
    let flag = flag_of(s[at]);
    let (name, next) = read_name(s, at, WireInt::PREFIX6)?;
    let v = read_string(s, next, VALUE_LIMIT);
    let Ok((value, after)) = v else {
        return Err(v.unwrap_err());
    };
    Ok((RepresentationPlace::Literal(flag, name, value), after))
}

// The representation at the place `at`.
pub fn read_representation(s: &[u8], at: usize) -> Read<RepresentationPlace>
    ensures { result ≡ read_representation s.now at }
{
    if s.len() <= at {
        return Err(Refusal::Truncated);
    }
    if s[at] < INDEXED {
        return read_literal(s, at);
    }
    read_indexed(s, at)
}

// The reading of a whole block: whether it is one, or its first refusal.
pub fn check_block(s: &[u8]) -> Result<(), Refusal>
    ensures checked { result ≡ block_checked (read_block s.now) }
    ensures number { checked_number result ≡ (block_answer (read_block s.now)).number }
{
    if BLOCK_LIMIT < s.len() {
        return Err(Refusal::TooLong);
    }
    // No step is counted, so `for` has none to take: where a representation ends says its reader. An iterator would keep this place and make this call.
    let mut at: usize = 0;
    while at < s.len() {
        (_, at) = read_representation(s, at)?;
    }
    Ok(())
}
