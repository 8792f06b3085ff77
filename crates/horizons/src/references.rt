// The encoder's references: for each kind of part the horizon that an entry's delete would be written with, by the entry's row.
ghost use Rattle.std.specs.Prelude.{◌≡◌, ℕ, ◌+◌, ◌≤◌, ◌<◌, length};
ghost use Rattle.state.specs.Layout.{encoder_length};
ghost use Rattle.parts.specs.Turn.{part_in};
ghost use Rattle.horizons.specs.Horizons.{raised_at, raised, horizons_opened, horizons_closed};

use columns::column::{close, open_u16};
use integers::number::StreamNumber;
use parts::turn::Part;
use state::kept::{horizon_at, put_horizon};
use state::reference::{
    HORIZON_LENGTH, NONTRAILER_HORIZONS, TRAILER_HORIZONS, nontrailer_place, trailer_place,
};

// Raises the horizon at this place to one more than the stream, if it is lower.
fn raise(m: &mut [u8], at: usize, stream: StreamNumber)
    requires { (at + 2 ≤ length m.old) × (stream.value < 4096) }
    ensures { m.new ≡ raised_at m.old at stream.value }
{
    let next = stream.value + 1;
    if horizon_at(m, at) < next {
        put_horizon(m, at, next);
    }
}

// A block of this part on this stream refers to the entry in row `place`.
pub fn refer(m: &mut [u8], place: usize, part: Part, stream: StreamNumber)
    requires { (place < 128) × (encoder_length ≤ length m.old) × (stream.value < 4096) }
    ensures { m.new ≡ raised m.old place (part_in part) stream.value }
{
    let at = match part {
        Part::Nontrailer => nontrailer_place(place),
        Part::Trailer => trailer_place(place),
    };
    raise(m, at, stream);
}

// The horizons of a new entry in row `place`, before others of `count`: it is referred to by no block.
pub fn open_horizons(m: &mut [u8], place: usize, count: usize)
    requires { (place ≤ count) × (count < 128) × (encoder_length ≤ length m.old) }
    ensures { m.new ≡ horizons_opened m.old place count }
{
    open_u16(m, NONTRAILER_HORIZONS, place, count, 0);
    open_u16(m, TRAILER_HORIZONS, place, count, 0);
}

// Takes out the horizons of the entry in row `place`, one of `count`.
pub fn close_horizons(m: &mut [u8], place: usize, count: usize)
    requires { (place < count) × (count ≤ 128) × (encoder_length ≤ length m.old) }
    ensures { m.new ≡ horizons_closed m.old place count }
{
    close(m, NONTRAILER_HORIZONS, HORIZON_LENGTH, place, count);
    close(m, TRAILER_HORIZONS, HORIZON_LENGTH, place, count);
}
