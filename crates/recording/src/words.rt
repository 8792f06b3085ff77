// What a call is about, and why a line is no call, in words.
ghost use Rattle.std.specs.Prelude.{Some};
ghost use Rattle.recording.specs.Words.{kind_text, fault_text};

use crate::{Fault, Kind};
use std::fmt;

impl fmt::Display for Kind {
    ghost output = { λ kind. Some (kind_text kind) };

    fn fmt<W: fmt::Write>(&self, f: &mut fmt::Formatter<W>) -> fmt::Result {
        match self {
            Kind::DecoderStart => f.write_str("decoder start"),
            Kind::DecoderRead => f.write_str("management"),
            Kind::DecoderBlock => f.write_str("block"),
            Kind::DecoderOver => f.write_str("end of message"),
            Kind::DecoderEnded => f.write_str("end of stream"),
            Kind::DecoderCollect => f.write_str("collect"),
            Kind::DecoderHold => f.write_str("hold enquiry"),
            Kind::EncoderStart => f.write_str("encoder start"),
            Kind::EncoderInsert => f.write_str("encoder insert"),
            Kind::EncoderDelete => f.write_str("encoder delete"),
            Kind::EncoderBlock => f.write_str("encoder block"),
            Kind::EncoderAcknowledge => f.write_str("acknowledgement"),
        }
    }
}

impl fmt::Display for Fault {
    ghost output = { λ fault. Some (fault_text fault) };

    fn fmt<W: fmt::Write>(&self, f: &mut fmt::Formatter<W>) -> fmt::Result {
        match self {
            Fault::NoSuchCall => f.write_str("no such call"),
            Fault::NoNumber => f.write_str("a number is missing, or is none of 0 to 2^64 - 1"),
            Fault::NoBytes => f.write_str(
                "bytes are missing, are no pairs of hexadecimal digits, or are more than 20,000",
            ),
            Fault::BadRoom => f.write_str("the room is no number of 0 to 65,536"),
            Fault::MoreWords => f.write_str("more words than the call has"),
            Fault::TooLong => f.write_str("longer than 65,535 characters"),
        }
    }
}
