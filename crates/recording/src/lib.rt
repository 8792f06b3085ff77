// A line of a recording (docs/RECORDINGS.md): a comment, a call with its numbers and bytes, or neither.
#![tactic(auto)]

ghost use Rattle.std.specs.Prelude.{◌≡◌, ◌≤◌, length, IfOk};
ghost use Rattle.recording.specs.Outputs.{has_output};

mod words;

use tokens::{Words, bytes, number};

// How many bytes of output are lent where a line does not say it, and the most that it can say.
pub const MOST_ROOM: usize = 65_536;

// Which call of which end.
#[derive(Clone, Copy, Debug, PartialEq, Eq)]
pub enum Kind {
    DecoderStart,
    DecoderRead,
    DecoderBlock,
    DecoderOver,
    DecoderEnded,
    DecoderCollect,
    DecoderHold,
    EncoderStart,
    EncoderInsert,
    EncoderDelete,
    EncoderBlock,
    EncoderAcknowledge,
}

// A call with its numbers, in the order of the line. Its bytes stand in a slice beside it: the first ones up to the place `split`, and the
// value of an insert from there up to the place `end`. `room` bytes of output are lent.
#[derive(Clone, Copy, Debug, PartialEq, Eq)]
pub struct Call {
    pub kind: Kind,
    pub first: u64,
    pub second: u64,
    pub split: usize,
    pub end: usize,
    pub room: usize,
}

// Why a line is no call; `TooLong` is said of one that its reader does not hold.
#[derive(Clone, Copy, Debug, PartialEq, Eq)]
pub enum Fault {
    NoSuchCall,
    NoNumber,
    NoBytes,
    BadRoom,
    MoreWords,
    TooLong,
}

// How many numbers and how many words of bytes a call has, and whether it has an output.
#[derive(Clone, Copy, Debug, PartialEq, Eq)]
struct Shape {
    numbers: u8,
    strings: u8,
    output: bool,
}

impl Shape {
    fn of(numbers: u8, strings: u8, output: bool) -> Shape
        ensures { result.output ≡ output }
    {
        Shape {
            numbers,
            strings,
            output,
        }
    }
}

impl Kind {
    // The kind of the call that a line begins with, by its first two words.
    fn named(side: &[u8], name: &[u8]) -> Option<Kind> {
        match (side, name) {
            (b"decoder", b"start") => Some(Kind::DecoderStart),
            (b"decoder", b"read") => Some(Kind::DecoderRead),
            (b"decoder", b"block") => Some(Kind::DecoderBlock),
            (b"decoder", b"over") => Some(Kind::DecoderOver),
            (b"decoder", b"ended") => Some(Kind::DecoderEnded),
            (b"decoder", b"collect") => Some(Kind::DecoderCollect),
            (b"decoder", b"hold") => Some(Kind::DecoderHold),
            (b"encoder", b"start") => Some(Kind::EncoderStart),
            (b"encoder", b"insert") => Some(Kind::EncoderInsert),
            (b"encoder", b"delete") => Some(Kind::EncoderDelete),
            (b"encoder", b"block") => Some(Kind::EncoderBlock),
            (b"encoder", b"acknowledge") => Some(Kind::EncoderAcknowledge),
            _ => None,
        }
    }

    // The shape of a call's line.
    fn shape(self) -> Shape
        ensures { result.output ≡ has_output self }
    {
        match self {
            Kind::DecoderStart => Shape::of(1, 0, false),
            Kind::DecoderRead => Shape::of(0, 1, false),
            Kind::DecoderBlock => Shape::of(2, 1, true),
            Kind::DecoderOver => Shape::of(1, 0, false),
            Kind::DecoderEnded => Shape::of(1, 0, false),
            Kind::DecoderCollect => Shape::of(0, 0, true),
            Kind::DecoderHold => Shape::of(1, 0, false),
            Kind::EncoderStart => Shape::of(1, 0, false),
            Kind::EncoderInsert => Shape::of(0, 2, true),
            Kind::EncoderDelete => Shape::of(1, 0, true),
            Kind::EncoderBlock => Shape::of(2, 1, true),
            Kind::EncoderAcknowledge => Shape::of(0, 1, false),
        }
    }

    // Does a call of this kind have an output?
    pub fn has_output(self) -> bool
        ensures { result ≡ has_output self }
    {
        self.shape().output
    }
}

// The number that the next word says.
fn read_number(words: &mut Words) -> Result<u64, Fault> {
    words.next().and_then(number).ok_or(Fault::NoNumber)
}

// The bytes that the next word says, put into `out` from the place `at` on, and the place after them.
fn read_bytes(words: &mut Words, out: &mut [u8], at: usize) -> Result<usize, Fault> {
    let word = words.next().ok_or(Fault::NoBytes)?;
    bytes(word, out, at).ok_or(Fault::NoBytes)
}

// The room at the end of the line. Only a call with an output can name one, and nothing can follow it.
fn read_room(output: bool, words: &mut Words) -> Result<usize, Fault> {
    let Some(word) = words.next() else {
        return Ok(MOST_ROOM);
    };
    if !output {
        return Err(Fault::MoreWords);
    }
    let room = number(word).ok_or(Fault::BadRoom)?;
    if room > MOST_ROOM as u64 {
        return Err(Fault::BadRoom);
    }
    if words.next().is_some() {
        return Err(Fault::MoreWords);
    }
    Ok(room as usize)
}

// What follows the name of a call.
fn read_call(kind: Kind, words: &mut Words, out: &mut [u8]) -> Result<Call, Fault> {
    let shape = kind.shape();
    let first = if 1 <= shape.numbers {
        read_number(words)?
    } else {
        0
    };
    let second = if 2 <= shape.numbers {
        read_number(words)?
    } else {
        0
    };
    let split = if 1 <= shape.strings {
        read_bytes(words, out, 0)?
    } else {
        0
    };
    let end = if 2 <= shape.strings {
        read_bytes(words, out, split)?
    } else {
        split
    };
    let room = read_room(shape.output, words)?;
    Ok(Call {
        kind,
        first,
        second,
        split,
        end,
        room,
    })
}

// The call that the line says, or nothing where it is a comment; the call's bytes are put into `out`.
pub fn read_line(text: &[u8], out: &mut [u8]) -> Result<Option<Call>, Fault> {
    let mut words = Words::of(text);
    let Some(side) = words.next() else {
        return Ok(None);
    };
    if text.starts_with(b"#") {
        return Ok(None);
    }
    let name = words.next().ok_or(Fault::NoSuchCall)?;
    let kind = Kind::named(side, name).ok_or(Fault::NoSuchCall)?;
    let call = read_call(kind, &mut words, out)?;
    Ok(Some(call))
}
