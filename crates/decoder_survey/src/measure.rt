// The first pass over a block: is it read whole, does it name a vacant index, and how many bytes do its fields take in the host's list form?
ghost use Rattle.std.specs.Prelude.{◌≡◌, ℕ, ◌<◌, length, get_or};
ghost use Rattle.blocks.specs.Representation.{Representation};
ghost use Rattle.blocks.specs.Reading.{InBytes};
ghost use Rattle.decoder_survey.specs.Measure.{Stands, field_meant, field_at, named_at, field_measured};
ghost use Rattle.decoder_survey.specs.Passes.{step_at, waits_unless, rest_at, block_survey, ToldSurvey};

use blocks::read::{BLOCK_LIMIT, INDEXED, RepresentationPlace, read_representation};
use entry_places::place::{lengths_at, locate};
use field_writing::write::field_size;
use integers::answer::{Read, Refusal};
use integers::number::TableIndex;
use short_forms::short::{short_index, short_literal, short_named};
use wire::name::NamePlace;
use wire::text::StringPlace;

// What a representation or a whole block comes to: the bytes of its fields in the list, or the first vacant index that it names.
#[derive(Drop)]
pub enum Survey {
    Bytes(usize),
    Waits(TableIndex),
}

// An entry by its index.
fn indexed_size(m: &[u8], index: TableIndex) -> Survey
    requires { Stands m.now × (0 < index.value) }
    ensures { result ≡ field_measured (field_meant m.now (Representation.indexed index.value)) }
{
    match lengths_at(m, locate(m, index)) {
        Some((name, value)) => Survey::Bytes(field_size(name, value)),
        None => Survey::Waits(index),
    }
}

// A literal whose name is an entry's, whatever its N bit.
fn named_size(m: &[u8], s: &[u8], index: TableIndex, value: StringPlace) -> Survey
    requires stands { Stands m.now }
    requires in_bytes { InBytes s.now (RepresentationPlace.Literal 0 (NamePlace.Index index) value) }
    ensures { (flag : ℕ) → result ≡ field_measured (named_at m.now s.now flag index value) }
{
    match lengths_at(m, locate(m, index)) {
        Some((name, _)) => Survey::Bytes(field_size(name, value.length(s))),
        None => Survey::Waits(index),
    }
}

// One representation.
fn field_measured(m: &[u8], s: &[u8], r: RepresentationPlace) -> Survey
    requires stands { Stands m.now }
    requires in_bytes { InBytes s.now r }
    ensures { result ≡ field_measured (field_at m.now s.now r) }
{
    match r {
        RepresentationPlace::Indexed(index) => indexed_size(m, index),
        RepresentationPlace::Literal(_, name, value) => match name {
            NamePlace::Index(index) => named_size(m, s, index, value),
            NamePlace::Text(bytes) => Survey::Bytes(field_size(bytes.length(s), value.length(s))),
        },
    }
}

// The representation at the place `at` and the place after it, whatever its form.
fn read_step(m: &[u8], s: &[u8], at: usize) -> Read<Survey>
    requires { Stands m.now }
    ensures { result ≡ step_at m.now s.now at }
{
    let (place, next) = read_representation(s, at)?;
    Ok((field_measured(m, s, place), next))
}

// The same of a literal; one with its name by a short index is looked for first.
fn literal_step(m: &[u8], s: &[u8], at: usize) -> Read<Survey>
    requires { Stands m.now × (at < length s.now) × (get_or s.now at 0 < 128) }
    ensures { result ≡ step_at m.now s.now at }
{
    let Some((index, value, next)) = short_named(s, at) else {
        return read_step(m, s, at);
    };
    Ok((named_size(m, s, index, value), next))
}

// The same of any representation, short forms first. A short literal takes as many bytes in the list as in the block.
fn next_step(m: &[u8], s: &[u8], at: usize) -> Read<Survey>
    requires { Stands m.now × (at < length s.now) }
    ensures { result ≡ step_at m.now s.now at }
{
    if s[at] < INDEXED {
        let Some(next) = short_literal(s, at) else {
            return literal_step(m, s, at);
        };
        return Ok((Survey::Bytes(next - at), next));
    }
    let Some((index, next)) = short_index(s, at) else {
        return read_step(m, s, at);
    };
    Ok((indexed_size(m, index), next))
}

// A block that waits: what stands from the place `from` on must be read all the same, since a refusal comes first.
fn survey_waiting(s: &[u8], from: usize, index: TableIndex) -> Result<Survey, Refusal>
    ensures { result ≡ waits_unless index (rest_at s.now from) }
{
    let mut at = from;
    // No `for`: a representation that was read says where the next begins.
    while at < s.len() {
        (_, at) = read_representation(s, at)?;
    }
    Ok(Survey::Waits(index))
}

// The whole block.
pub fn survey_block(m: &[u8], s: &[u8]) -> Result<Survey, Refusal>
    requires { Stands m.now }
    ensures value { result ≡ block_survey m.now s.now }
    ensures told_survey { ToldSurvey result }
{
    if BLOCK_LIMIT < s.len() {
        return Err(Refusal::TooLong);
    }
    let mut bytes: usize = 0;
    let mut at: usize = 0;
    // No `for`: a representation that was read says where the next begins.
    while at < s.len() {
        let (found, next) = next_step(m, s, at)?;
        match found {
            Survey::Bytes(more) => {
                bytes += more;
                at = next;
            }
            Survey::Waits(index) => {
                return survey_waiting(s, next, index);
            }
        }
    }
    Ok(Survey::Bytes(bytes))
}
