// A whole block, if it is short.
ghost use Rattle.std.specs.Prelude.{◌≡◌, ℕ, ◌+◌, ◌<◌, ◌≤◌, length, get_or};
ghost use Rattle.decoder_survey.specs.Measure.{Stands};
ghost use Rattle.decoder_literals.specs.Taking.{FieldTaken};
ghost use Rattle.decoder_short.specs.Pass.{FieldsTaken, BlockDecoded, BlockGiven};

use crate::entry::{run, take_row};
use blocks::read::INDEXED;
use copying::copy::copy;
use decoder_literals::literal::take_literal;
use integers::answer::Refusal;

// The most bytes that a block has for this pass, and its list.
const SHORT_BLOCK: usize = 512;

const LIST_ROOM: usize = 1_024;

// A literal whose name is a string, or a row: most fields are one or the other.
fn take(m: &[u8], s: &[u8], at: usize, out: &mut [u8], to: usize) -> Option<(usize, usize)>
    requires { Stands m.now × (at < length s.now) × (to ≤ length out.old) }
    ensures { FieldTaken m.now s.now at out.old out.new to result }
{
    if s[at] < INDEXED {
        return take_literal(s, at, out, to);
    }
    take_row(m, s, at, out, to)
}

// All fields of the block, from the front of the buffer: how many bytes they are. Or the block is not for this pass.
fn decode(m: &[u8], s: &[u8], out: &mut [u8]) -> Option<usize>
    requires { Stands m.now × (length s.now ≤ 16384) }
    ensures { BlockDecoded m.now s.now out.new result }
{
    let mut to: usize = 0;
    let mut at: usize = 0;
    // No `for`: a field that was taken says where the next begins.
    while at < s.len() {
        let l = take(m, s, at, out, to);
        if let Some((next, after)) = l {
            at = next;
            to = after;
        } else {
            let r = run(m, s, at, out, to);
            let Some((next, after)) = r else {
                return None;
            };
            at = next;
            to = after;
        }
    }
    Some(to)
}

// The block's fields, from the front of the output: how many bytes they are, or that there is no room for them. Or the block is not for this pass.
pub fn give_short(m: &[u8], s: &[u8], out: &mut [u8]) -> Option<Result<usize, Refusal>>
    requires { Stands m.now }
    ensures { BlockGiven m.now s.now out.old out.new result }
{
    if SHORT_BLOCK < s.len() {
        return None;
    }
    let mut list = [0u8; LIST_ROOM];
    let Some(n) = decode(m, s, &mut list) else {
        return None;
    };
    if out.len() < n {
        return Some(Err(Refusal::NoRoom));
    }
    copy(&list[0..n], out, 0);
    Some(Ok(n))
}
