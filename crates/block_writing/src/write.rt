// Representations written at a place of the output. Each answers the place after what it wrote.
ghost use Rattle.std.specs.Prelude.{◌≡◌, ℕ, ◌+◌, ◌≤◌, length};
ghost use Rattle.memory.specs.Bytes.{overlay};
ghost use Rattle.blocks.specs.Representation.{Representation, FineRepresentation, representation_wire};

use blocks::read;
use integers::integer::WireInt;
use integers::number::TableIndex;
use wire_writing::write::{NameToWrite, write_string};

// The bit before an index, and the N bit of a literal, as a reader finds them.
const INDEXED: u32 = read::INDEXED as u32;

const NEVER_STORE: u32 = read::NEVER_STORE as u32;

// A field of the tables by its index.
pub fn write_indexed(index: TableIndex, out: &mut [u8], at: usize) -> usize
    requires fine_representation { FineRepresentation (Representation.indexed index.value) }
    requires value_in_bounds { at + length (representation_wire (Representation.indexed index.value)) ≤ length out.old }
    ensures value { result ≡ at + length (representation_wire (Representation.indexed index.value)) }
    ensures out_after { out.new ≡ overlay out.old at (representation_wire (Representation.indexed index.value)) }
{
    let i = WireInt::new(index.value);
    i.write(out, at, WireInt::PREFIX7, INDEXED)
}

// A literal with its name by index, or as bytes.
pub fn write_literal<N: NameToWrite>(
    flag: u8,
    name: N,
    value: &[u8],
    out: &mut [u8],
    at: usize,
) -> usize
    requires fine_representation { FineRepresentation (Representation.literal flag (N.says name) value.now) }
    requires value_in_bounds { at + length (representation_wire (Representation.literal flag (N.says name) value.now)) ≤ length out.old }
    ensures value { result ≡ at + length (representation_wire (Representation.literal flag (N.says name) value.now)) }
    ensures out_after { out.new ≡ overlay out.old at (representation_wire (Representation.literal flag (N.says name) value.now)) }
{
    let next = name.write_name(out, at, WireInt::PREFIX6, (flag as u32) * NEVER_STORE);
    write_string(value, out, next)
}
