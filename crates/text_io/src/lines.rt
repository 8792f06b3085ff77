// The lines of a file, read in pieces into a lent buffer.
ghost use Rattle.std.specs.Prelude.{ℕ, ◌≤◌, length, IfOk};
ghost use Rattle.text_io.specs.Lines.{Inside, Placed};

use crate::source::Source;
use std::io::{Read, Result};
use tokens::hex::line_end;

// What of the buffer is still to be read: the bytes from `from` up to `filled`.
#[derive(Clone, Copy, Debug, PartialEq, Eq)]
pub struct Reader {
    pub from: usize,
    pub filled: usize,
}

// A line that was read: its place in the buffer, from the first number up to the second, without its newline; or one that the buffer does
// not hold, passed over to its end.
#[derive(Clone, Copy, Debug, PartialEq, Eq)]
pub enum Line {
    At(usize, usize),
    TooLong,
}

impl Reader {
    pub fn new() -> Reader
        ensures { (result.from ≤ result.filled) × (result.filled ≤ 0) }
    {
        Reader { from: 0, filled: 0 }
    }

    // The next line, or nothing at the end of the file. Each turn brings at least a byte, so that the buffer is full at last. After a read
    // that fails, what the buffer has of the line is still to be read, but of a line that is passed over nothing is.
    pub fn next_line(&mut self, source: &mut Source, buf: &mut [u8]) -> Result<Option<Line>>
        requires { Inside (length buf.old) self.old }
        ensures placed { IfOk result (Placed (length buf.new)) }
        ensures inside { Inside (length buf.new) self.new }
    {
        // A loop with no count: how many reads a line takes, the file decides.
        loop {
            let end = line_end(&buf[..self.filled], self.from);
            if end < self.filled {
                let from = self.from;
                self.from = end + 1;
                return Ok(Some(Line::At(from, end)));
            }
            let rest = self.filled - self.from;
            if rest == buf.len() {
                return self.pass_over(source, buf);
            }
            buf.copy_within(self.from..self.filled, 0);
            *self = Reader {
                from: 0,
                filled: rest,
            };
            let count = source.read(&mut buf[rest..])?;
            if count == 0 {
                // the end of the file: its last line may lack a newline
                if rest == 0 {
                    return Ok(None);
                }
                self.from = rest;
                return Ok(Some(Line::At(0, rest)));
            }
            self.filled = rest + count;
        }
    }

    // Passes over what is left of a line. Nothing says that a file ends, so the turns are counted, up to a number that no run reaches.
    fn pass_over(&mut self, source: &mut Source, buf: &mut [u8]) -> Result<Option<Line>>
        ensures placed { IfOk result (Placed (length buf.new)) }
        ensures inside { Inside (length buf.new) self.new }
    {
        *self = Reader::new();
        for _ in 0..u64::MAX {
            let filled = source.read(buf)?;
            if filled == 0 {
                break;
            }
            let end = line_end(&buf[..filled], 0);
            if end < filled {
                *self = Reader {
                    from: end + 1,
                    filled,
                };
                break;
            }
        }
        Ok(Some(Line::TooLong))
    }
}
