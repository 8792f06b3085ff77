// A field's representation written.
ghost use Rattle.std.specs.Prelude.{◌≡◌, ◌+◌, ◌≤◌, length};
ghost use Rattle.memory.specs.Bytes.{overlay};
ghost use Rattle.blocks.specs.Representation.{representation_wire, FineRepresentation};
ghost use Rattle.encoder_fields.specs.Measure.{as_field, chosen};

use crate::choice::Choice;
use crate::field::ListField;
use block_writing::write::{write_indexed, write_literal};

// One field's representation, by its choice.
pub fn write_choice(choice: Choice, f: ListField, out: &mut [u8], at: usize) -> usize
    requires fine_representation { FineRepresentation (chosen (as_field f) choice) }
    requires choice_in_bounds { at + length (representation_wire (chosen (as_field f) choice)) ≤ length out.old }
    ensures value { result ≡ at + length (representation_wire (chosen (as_field f.entry) choice)) }
    ensures out_after { out.new ≡ overlay out.old at (representation_wire (chosen (as_field f.entry) choice)) }
{
    match choice {
        Choice::Indexed(i) => write_indexed(i, out, at),
        Choice::Named(i) => write_literal(f.flag, i, f.value, out, at),
        Choice::Literal => write_literal(f.flag, f.name, f.value, out, at),
    }
}
