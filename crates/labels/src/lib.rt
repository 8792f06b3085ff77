// Words for what the programs tell: answers, and parts of streams.
#![tactic(auto)]

ghost use Rattle.std.specs.Prelude.{Some};
ghost use Rattle.labels.specs.Words.{answer_text, part_text};

use std::fmt;

// An answer by its number; in words it is nothing where no answer has this number.
#[derive(Clone, Copy)]
pub struct Answer(pub u8);

impl fmt::Display for Answer {
    ghost output = { λ answer. Some (answer_text answer.0) };

    fn fmt<W: fmt::Write>(&self, f: &mut fmt::Formatter<W>) -> fmt::Result {
        match self.0 {
            0 => f.write_str("done"),
            1 => f.write_str("vacant index"),
            2 => f.write_str("bytes end too early"),
            3 => f.write_str("integer too large or too long"),
            4 => f.write_str("H set"),
            5 => f.write_str("index or instruction not allowed"),
            6 => f.write_str("index held"),
            7 => f.write_str("limit passed"),
            8 => f.write_str("index vacant"),
            9 => f.write_str("entry already under deletion"),
            10 => f.write_str("entry not under deletion"),
            11 => f.write_str("stream, part or turn not allowed"),
            12 => f.write_str("lent output or memory too small"),
            13 => f.write_str("string or block too long"),
            14 => f.write_str("bad stream list"),
            15 => f.write_str("all places held"),
            16 => f.write_str("field list not in its form"),
            17 => f.write_str("memory forms no state"),
            18 => f.write_str("packed string not in its form"),
            19 => f.write_str("integer not in its shortest form"),
            _ => f.write_str(""),
        }
    }
}

// A part of a stream by its number.
#[derive(Clone, Copy)]
pub struct Part(pub u64);

impl fmt::Display for Part {
    ghost output = { λ part. Some (part_text part.0) };

    fn fmt<W: fmt::Write>(&self, f: &mut fmt::Formatter<W>) -> fmt::Result {
        match self.0 {
            0 => f.write_str("message"),
            1 => f.write_str("trailer"),
            n => write!(f, "part {n}"),
        }
    }
}
