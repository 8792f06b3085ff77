// Instructions written at a place of the output. Each answers the place after what it wrote.
ghost use Rattle.std.specs.Prelude.{◌≡◌, ℕ, ◌+◌, ◌≤◌, [], length};
ghost use Rattle.memory.specs.Bytes.{overlay};
ghost use Rattle.instructions.specs.Instruction.{Instruction, FineInstruction, instruction_wire};

use instructions::read;
use integers::integer::WireInt;
use integers::number::TableIndex;
use stream_lists::stream_list::write_list;
use wire_writing::write::{NameToWrite, write_string};

// The bits before an index, as a reader finds them.
const INSERT: u32 = read::INSERT as u32;

const ACKNOWLEDGE: u32 = read::ACKNOWLEDGE as u32;

const DELETE: u32 = read::DELETE as u32;

// An insert with its name by index, or as bytes.
#[tactic(auto, unfolding(instructions::specs::Instruction::instruction_wire))]
pub fn write_insert<N: NameToWrite>(
    index: TableIndex,
    name: N,
    value: &[u8],
    out: &mut [u8],
    at: usize,
) -> usize
    requires fine_instruction { FineInstruction (Instruction.insert index.value (N.says name) value.now) }
    requires value_in_bounds { at + length (instruction_wire (Instruction.insert index.value (N.says name) value.now)) ≤ length out.old }
    ensures value { result ≡ at + length (instruction_wire (Instruction.insert index.value (N.says name) value.now)) }
    ensures out_after { out.new ≡ overlay out.old at (instruction_wire (Instruction.insert index.value (N.says name) value.now)) }
{
    let i = WireInt::new(index.value);
    let next = i.write(out, at, WireInt::PREFIX7, INSERT);
    let after = name.write_name(out, next, WireInt::PREFIX8, 0);
    write_string(value, out, after)
}

// A delete with its two stream lists, each a horizon and the streams listed above it.
#[tactic(auto, unfolding(instructions::specs::Instruction::instruction_wire))]
pub fn write_delete(
    index: TableIndex,
    horizon: u32,
    streams: &[u16],
    trailer_horizon: u32,
    trailer_streams: &[u16],
    out: &mut [u8],
    at: usize,
) -> usize
    requires fine_instruction { FineInstruction (Instruction.delete index.value (record { horizon = horizon; streams = streams.now }) (record { horizon = trailer_horizon; streams = trailer_streams.now })) }
    requires trailer_streams_in_bounds { at + length (instruction_wire (Instruction.delete index.value (record { horizon = horizon; streams = streams.now }) (record { horizon = trailer_horizon; streams = trailer_streams.now }))) ≤ length out.old }
    ensures value { result ≡ at + length (instruction_wire (Instruction.delete index.value (record { horizon = horizon; streams = streams.now }) (record { horizon = trailer_horizon; streams = trailer_streams.now }))) }
    ensures out_after { out.new ≡ overlay out.old at (instruction_wire (Instruction.delete index.value (record { horizon = horizon; streams = streams.now }) (record { horizon = trailer_horizon; streams = trailer_streams.now }))) }
{
    let i = WireInt::new(index.value);
    let next = i.write(out, at, WireInt::PREFIX6, DELETE);
    let after = write_list(horizon, streams, out, next);
    write_list(trailer_horizon, trailer_streams, out, after)
}

// The acknowledgement of a delete.
#[tactic(auto, unfolding(instructions::specs::Instruction::instruction_wire))]
pub fn write_acknowledgement(index: TableIndex, out: &mut [u8], at: usize) -> usize
    requires fine_instruction { FineInstruction (Instruction.acknowledge index.value) }
    requires value_in_bounds { at + length (instruction_wire (Instruction.acknowledge index.value)) ≤ length out.old }
    ensures value { result ≡ at + length (instruction_wire (Instruction.acknowledge index.value)) }
    ensures out_after { out.new ≡ overlay out.old at (instruction_wire (Instruction.acknowledge index.value)) }
{
    let i = WireInt::new(index.value);
    i.write(out, at, WireInt::PREFIX6, ACKNOWLEDGE)
}
