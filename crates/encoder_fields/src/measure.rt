// How many bytes a field's representation takes.
ghost use Rattle.std.specs.Prelude.{◌≡◌, ◌≤◌, length};
ghost use Rattle.blocks.specs.Representation.{representation_wire};
ghost use Rattle.encoder_fields.specs.Measure.{as_field, chosen};

use crate::choice::Choice;
use crate::field::ListField;
use sizes::{indexed_size, literal_index_size, literal_text_size};
use wire::text::wire_size;

// One field's representation, by its choice.
pub fn choice_size(choice: Choice, f: ListField) -> usize
    ensures { (result ≡ length (representation_wire (chosen (as_field f.entry) choice))) × (result ≤ 4105) }
{
    match choice {
        Choice::Indexed(i) => indexed_size(i),
        Choice::Named(i) => literal_index_size(i, wire_size(f.value)),
        Choice::Literal => literal_text_size(wire_size(f.name), wire_size(f.value)),
    }
}
