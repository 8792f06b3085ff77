// What a call of a recording gets of the bytes that stand there and of the output.
#![tactic(auto)]

ghost use Rattle.std.specs.Prelude.{◌≡◌, take, drop};
ghost use Rattle.recorded_parts.specs.Lent.{lent_of};

use recording::Call;

// The first `n` bytes, or all where there are not so many.
pub fn first<'a>(s: &'a [u8], n: usize) -> &'a [u8]
    ensures { result.now ≡ take n s.now }
{
    &s[..n.min(s.len())]
}

// What stands behind the first `n` bytes.
pub fn behind<'a>(s: &'a [u8], n: usize) -> &'a [u8]
    ensures { result.now ≡ drop n s.now }
{
    &s[n.min(s.len())..]
}

// The call's own bytes, the first of those that stand there.
pub fn own<'a>(call: Call, bytes: &'a [u8]) -> &'a [u8]
    ensures { result.now ≡ take call.end bytes.now }
{
    first(bytes, call.end)
}

// How many bytes the call is lent of an output of `n`: as many as its room says, or all where there are not so many.
pub fn lent(call: Call, n: usize) -> usize
    ensures { result ≡ lent_of call.room n }
{
    let room = call.room;
    room.min(n)
}
