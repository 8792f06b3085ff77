// That a run is not complete: the line at which it ended, and why.
ghost use Rattle.std.specs.Prelude.{Some};
ghost use Rattle.text_io.specs.Incomplete.{why_text};

use crate::print::Printer;
use crate::stream::Stream;
use std::fmt;

#[derive(Clone, Copy, Debug, PartialEq, Eq)]
pub enum Why {
    NotOpened,
    NotRead,
    NotWritten,
}

impl fmt::Display for Why {
    ghost output = { λ why. Some (why_text why) };

    fn fmt<W: fmt::Write>(&self, f: &mut fmt::Formatter<W>) -> fmt::Result {
        match self {
            Why::NotOpened => f.write_str("the input cannot be opened"),
            Why::NotRead => f.write_str("the input cannot be read"),
            Why::NotWritten => f.write_str("the output cannot be written"),
        }
    }
}

// Writes to this stream that the run ended at this line, and answers whether that was written.
pub fn incomplete(to: Stream, line: u64, why: Why) -> bool {
    let mut buffer = io::buffer();
    let mut out = Printer::new(to, &mut buffer);
    writeln!(out, "INCOMPLETE at line {line}: {why}");
    out.flush();
    !out.is_lost()
}
