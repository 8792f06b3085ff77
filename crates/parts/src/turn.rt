// Which part of which stream is in turn. Behind `turn_of` the stream and the part are types, not numbers.
ghost use Rattle.std.specs.Prelude.{◌≡◌, ◌≤◌, length};
ghost use Rattle.memory.specs.Choice.{pick};
ghost use Rattle.model.specs.Parts.{part_of};
ghost use Rattle.state.specs.Layout.{front_length};
ghost use Rattle.state.specs.Front.{marks_of};
ghost use Rattle.parts.specs.Turn.{turn_of};

use integers::number::StreamNumber;
use marks::mark::is_set;
use state::layout::{NONTRAILER_MARKS, TRAILER_MARKS};

// The two parts of a stream.
#[derive(Clone, Copy)]
pub enum Part {
    Nontrailer,
    Trailer,
}

// The numbers by which calls name the parts, for the C interface. They become types in `turn_of`, and in decoder_block where a block is finished: a
// `Part::numbered(part: u64) -> Option<Part>` for both was tried, with which a warm block over 68 entries took 1,319 instructions, where 1,302 are allowed.
const NONTRAILER: u64 = 0;

const TRAILER: u64 = 1;

fn turn_if(marked: bool, stream: StreamNumber, part: Part) -> Option<(StreamNumber, Part)>
    ensures { result ≡ pick marked (Some (stream, part)) None }
{
    if marked {
        return Some((stream, part));
    }
    None
}

// Is this part of this stream in turn? A set mark says that the part is unfinished, or that blocks of it may still be written.
pub fn turn_of(m: &[u8], stream: u64, part: u64) -> Option<(StreamNumber, Part)>
    requires { front_length ≤ length m.now }
    ensures { result ≡ turn_of (marks_of m.now) stream (part_of part) }
{
    if (StreamNumber::LAST as u64) < stream {
        return None;
    }
    let s = StreamNumber::new(stream as u16);
    if part == NONTRAILER {
        return turn_if(is_set(m, NONTRAILER_MARKS, s), s, Part::Nontrailer);
    }
    if part != TRAILER {
        return None;
    }
    turn_if(is_set(m, TRAILER_MARKS, s), s, Part::Trailer)
}
