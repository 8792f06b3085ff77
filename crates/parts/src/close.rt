// Parts closed: both of a stream, and those that a block closes which was answered "done".
ghost use Rattle.std.specs.Prelude.{◌≡◌, ◌≤◌, ◌<◌, length};
ghost use Rattle.state.specs.Layout.{front_length};
ghost use Rattle.parts.specs.Turn.{part_in};
ghost use Rattle.parts.specs.Close.{closed_both, closed_by};

use crate::turn::Part;
use integers::number::StreamNumber;
use marks::mark::clear;
use state::layout::{NONTRAILER_MARKS, TRAILER_MARKS};

// Both parts of the stream are finished, or closed.
pub fn close_both(m: &mut [u8], stream: StreamNumber)
    requires { (stream.value < 4096) × (front_length ≤ length m.old) }
    ensures { m.new ≡ closed_both m.old stream.value }
{
    clear(m, NONTRAILER_MARKS, stream);
    clear(m, TRAILER_MARKS, stream);
}

// What a block answered "done" closes: a non-trailer block nothing, a trailer both parts.
pub fn close_after(m: &mut [u8], stream: StreamNumber, part: Part)
    requires { (stream.value < 4096) × (front_length ≤ length m.old) }
    ensures { m.new ≡ closed_by (part_in part) m.old stream.value }
{
    match part {
        Part::Nontrailer => {}
        Part::Trailer => close_both(m, stream),
    }
}
