// Stream lists: a horizon, a count and deltas, all with prefixes of eight bits.
ghost use Rattle.std.specs.Prelude.{◌≡◌, ℕ, ◌+◌, ◌≤◌, length};
ghost use Rattle.memory.specs.Bytes.{overlay};
ghost use Rattle.stream_lists.specs.StreamList.{horizon_limit, count_limit, read_delta, read_deltas, read_list, Fits, deltas_wire, list_wire};

use integers::answer::{Read, Refusal};
use integers::integer::WireInt;
use integers::number::StreamNumber;

pub const HORIZON_LIMIT: u32 = 4_096;

pub const COUNT_LIMIT: u32 = 16;

// A list as it stands in the bytes: the horizon, how many streams are listed, and where their deltas start.
#[derive(Drop)]
pub struct ListPlace {
    pub horizon: u32,
    pub count: u32,
    pub deltas: usize,
}

// The stream whose delta stands at the place `at`, counted from `last`: the horizon, which may be one more than any stream, or the stream before.
pub fn read_delta(s: &[u8], at: usize, last: u32) -> Read<StreamNumber>
    requires { last ≤ horizon_limit }
    ensures { result ≡ read_delta s.now at last }
{
    let r = WireInt::read(s, at, WireInt::PREFIX8);
    let Ok((n, next)) = r else {
        return Err(r.unwrap_err());
    };
    let delta = n.value;
    if delta == 0 {
        return Err(Refusal::BadStreamList);
    }
    let stream = last + delta;
    if (StreamNumber::LAST as u32) < stream {
        return Err(Refusal::BadStreamList);
    }
    Ok((StreamNumber::new(stream as u16), next))
}

// `count` deltas from the place `at` on; the first counts from the horizon.
fn read_deltas(s: &[u8], at: usize, count: u32, horizon: u32) -> Result<usize, Refusal>
    requires { horizon ≤ horizon_limit }
    ensures { result ≡ read_deltas count s.now at horizon }
{
    let mut next = at;
    let mut last = horizon;
    for _ in 0..count {
        let (stream, after) = read_delta(s, next, last)?;
        last = stream.value as u32;
        next = after;
    }
    Ok(next)
}

// The stream list at the place `at`.
pub fn read_list(s: &[u8], at: usize) -> Read<ListPlace>
    ensures { result ≡ read_list s.now at }
{
    let r = WireInt::read(s, at, WireInt::PREFIX8);
    let Ok((n, after)) = r else {
        return Err(r.unwrap_err());
    };
    let horizon = n.value;
    if HORIZON_LIMIT < horizon {
        return Err(Refusal::BadStreamList);
    }
    let q = WireInt::read(s, after, WireInt::PREFIX8);
    let Ok((m, deltas)) = q else {
        return Err(q.unwrap_err());
    };
    let count = m.value;
    if COUNT_LIMIT < count {
        return Err(Refusal::BadStreamList);
    }
    let next = read_deltas(s, deltas, count, horizon)?;
    Ok((
        ListPlace {
            horizon,
            count,
            deltas,
        },
        next,
    ))
}

// Writes the deltas of ascending streams above the horizon, and answers the place after them.
fn write_deltas(horizon: u32, streams: &[u16], out: &mut [u8], at: usize) -> usize
    requires fits { Fits horizon streams.now }
    requires streams_in_bounds { at + length (deltas_wire horizon streams.now) ≤ length out.old }
    ensures value { result ≡ at + length (deltas_wire horizon streams.now) }
    ensures out_after { out.new ≡ overlay out.old at (deltas_wire horizon streams.now) }
{
    let mut next = at;
    let mut last = horizon;
    for listed in streams {
        let stream = *listed as u32;
        let delta = WireInt::new(stream - last);
        next = delta.write(out, next, WireInt::PREFIX8, 0);
        last = stream;
    }
    next
}

// Writes a stream list, and answers the place after it.
pub fn write_list(horizon: u32, streams: &[u16], out: &mut [u8], at: usize) -> usize
    requires horizon_le_horizon_limit { (horizon ≤ horizon_limit) × (length streams.now ≤ count_limit) × Fits horizon streams.now }
    requires streams_in_bounds { at + length (list_wire horizon streams.now) ≤ length out.old }
    ensures value { result ≡ at + length (list_wire horizon streams.now) }
    ensures out_after { out.new ≡ overlay out.old at (list_wire horizon streams.now) }
{
    let h = WireInt::new(horizon);
    let after = h.write(out, at, WireInt::PREFIX8, 0);
    let n = WireInt::new(streams.len() as u32);
    let deltas = n.write(out, after, WireInt::PREFIX8, 0);
    write_deltas(horizon, streams, out, deltas)
}
