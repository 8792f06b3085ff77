// The references of a block that is being written: each is entered with its field, so that no field is chosen or read again.
ghost use Rattle.std.specs.Prelude.{◌≡◌, true, ◌<◌};
ghost use Rattle.state.specs.Forms.{forms_encoder};
ghost use Rattle.parts.specs.Turn.{part_in};
ghost use Rattle.encoder_fields.specs.Refer.{entered_one, entered_choice};

use encoder_fields::choice::Choice;
use horizons::references::refer;
use integers::number::{StreamNumber, TableIndex};
use parts::turn::Part;
use table_search::find::find;

// A block of this part on this stream refers to this index. Static entries have no horizon.
fn enter(m: &mut [u8], stream: StreamNumber, part: Part, index: TableIndex)
    requires { (stream.value < 4096) × (forms_encoder m.old ≡ true) }
    ensures { m.new ≡ entered_one m.old stream.value (part_in part) index.value }
{
    if index.value < TableIndex::FIRST {
        return;
    }
    let f = find(m, index);
    let Ok(place) = f else {
        return;
    };
    refer(m, place, part, stream);
}

// A field of that block refers to the index that its representation names, if it does.
pub fn enter_choice(m: &mut [u8], stream: StreamNumber, part: Part, choice: Choice)
    requires { (stream.value < 4096) × (forms_encoder m.old ≡ true) }
    ensures { m.new ≡ entered_choice m.old stream.value (part_in part) choice }
{
    match choice {
        Choice::Indexed(i) => enter(m, stream, part, i),
        Choice::Named(i) => enter(m, stream, part, i),
        Choice::Literal => {}
    }
}
