// One instruction read from the front of the given bytes, for each end.
ghost use Rattle.std.specs.Prelude.{◌≡◌, ℕ, ◌≤◌};
ghost use Rattle.instructions.specs.Reading.{read_index, read_insert, read_delete, read_acknowledgement, read_for_decoder, read_for_encoder};

use integers::answer::{Read, Refusal};
use integers::integer::WireInt;
use integers::number::TableIndex;
use stream_lists::stream_list::{ListPlace, read_list};
use wire::name::{NamePlace, read_name};
use wire::text::{StringPlace, VALUE_LIMIT, read_string};

// The first bits of an instruction, in its first byte: 1 for an insert, 01 for an acknowledgement, 00 for a delete.
pub const INSERT: u8 = 128;

pub const ACKNOWLEDGE: u8 = 64;

pub const DELETE: u8 = 0;

// An instruction as it stands in the bytes.
#[derive(Drop)]
pub enum InstructionPlace {
    // The new index, the name and the value.
    Insert(TableIndex, NamePlace, StringPlace),
    // The index, the list for non-trailer blocks and the list for trailer blocks.
    Delete(TableIndex, ListPlace, ListPlace),
    // The index whose delete is acknowledged.
    Acknowledge(TableIndex),
}

// The index at the front, with a prefix of `width` bits.
#[tactic(auto, unfolding(crate::specs::Reading::read_index))]
fn read_index(s: &[u8], width: u32) -> Read<TableIndex>
    requires { (1 ≤ width) × (width ≤ 8) }
    ensures { result ≡ read_index width s.now }
{
    // Document 01: an integer or string answer is taken apart by `let .. else`.
    let r = WireInt::read(s, 0, width);
    let Ok((n, next)) = r else {
        return Err(r.unwrap_err());
    };
    let value = n.value;
    if value < TableIndex::FIRST {
        return Err(Refusal::NotAllowed);
    }
    Ok((TableIndex::new(value), next))
}

#[tactic(auto, unfolding(crate::specs::Reading::read_insert))]
fn read_insert(s: &[u8]) -> Read<InstructionPlace>
    ensures { result ≡ read_insert s.now }
{
    let (index, next) = read_index(s, WireInt::PREFIX7)?;
    let (name, after) = read_name(s, next, WireInt::PREFIX8)?;
    // By `let .. else`, as in `read_index`.
    let v = read_string(s, after, VALUE_LIMIT);
    let Ok((value, taken)) = v else {
        return Err(v.unwrap_err());
    };
    Ok((InstructionPlace::Insert(index, name, value), taken))
}

#[tactic(auto, unfolding(crate::specs::Reading::read_delete))]
fn read_delete(s: &[u8]) -> Read<InstructionPlace>
    ensures { result ≡ read_delete s.now }
{
    let (index, next) = read_index(s, WireInt::PREFIX6)?;
    let (nontrailer, after) = read_list(s, next)?;
    let (trailer, taken) = read_list(s, after)?;
    Ok((InstructionPlace::Delete(index, nontrailer, trailer), taken))
}

#[tactic(auto, unfolding(crate::specs::Reading::read_acknowledgement))]
fn read_acknowledgement(s: &[u8]) -> Read<InstructionPlace>
    ensures { result ≡ read_acknowledgement s.now }
{
    let (index, taken) = read_index(s, WireInt::PREFIX6)?;
    Ok((InstructionPlace::Acknowledge(index), taken))
}

// The decoder's reader: inserts and deletes.
#[tactic(auto, unfolding(crate::specs::Reading::read_for_decoder))]
pub fn read_for_decoder(s: &[u8]) -> Read<InstructionPlace>
    ensures { result ≡ read_for_decoder s.now }
{
    match s.first() {
        None => Err(Refusal::Truncated),
        Some(&first) if INSERT <= first => read_insert(s),
        Some(&first) if ACKNOWLEDGE <= first => Err(Refusal::NotAllowed),
        Some(_) => read_delete(s),
    }
}

// The encoder's reader: acknowledgements.
#[tactic(auto, unfolding(crate::specs::Reading::read_for_encoder))]
pub fn read_for_encoder(s: &[u8]) -> Read<InstructionPlace>
    ensures { result ≡ read_for_encoder s.now }
{
    match s.first() {
        None => Err(Refusal::Truncated),
        Some(&first) if INSERT <= first => Err(Refusal::NotAllowed),
        Some(&first) if first < ACKNOWLEDGE => Err(Refusal::NotAllowed),
        Some(_) => read_acknowledgement(s),
    }
}
