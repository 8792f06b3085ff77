// A recording: its lines, read and run one after another on the memories of both ends, and told.
#![tactic(auto)]

ghost use Rattle.std.specs.Prelude.{◌≡◌, ◌↔◌, Bool, true};
ghost use Rattle.recorded_lines.specs.declared.End.TheVariants.{NotWritten};

use recorded_call::perform_within;
use recording::{Call, Fault, read_line};
use reply::Reply;
use text_io::lines::{Line, Reader};
use text_io::source::Source;
use tokens::MOST_BYTES;

// How many bytes a line says at most: those of two words.
const LINE_BYTES: usize = 2 * MOST_BYTES;

// How many bytes the memory of an end has, and a line, and what a call writes, at most.
const MEMORY: usize = 65_536;

// What became of a line: there was nothing to do, a call was answered, or it is no call. Three answers, so neither an Option nor a Result.
#[derive(Clone, Copy)]
pub enum Ran {
    Comment,
    Answered(Call, Reply),
    Bad(Fault),
}

// How a run ends: at the end of the file, at a line that cannot be read, where the text cannot be written, or at a line whose number is too large
// to be counted.
#[derive(Clone, Copy, Debug, PartialEq, Eq)]
pub enum End {
    Whole,
    NotRead,
    NotWritten,
    Uncounted,
}

// Who tells what becomes of the lines.
pub trait Teller {
    ghost lost: { Self → Bool };

    // Was some of the text lost?
    fn is_lost(&self) -> bool
        ensures { result ≡ lost self.now };

    // The line of this number was run. Its call's bytes are the first of `bytes`, and what it wrote the first of `output`.
    fn tell(&mut self, line: u64, ran: Ran, bytes: &[u8], output: &[u8]);
}

// Runs the lines of a recording from fresh memory, up to the last, or to one that cannot be read or told, and answers how many were read and how
// that ends.
pub fn run<T: Teller>(source: &mut Source, teller: &mut T) -> (u64, End)
    ensures { (result.1 ≡ NotWritten) ↔ (T.lost teller.new ≡ true) }
{
    let mut reader = Reader::new();
    let mut input = [0u8; MEMORY];
    let mut bytes = [0u8; LINE_BYTES];
    let mut decoder = [0u8; MEMORY];
    let mut encoder = [0u8; MEMORY];
    let mut output = [0u8; MEMORY];
    for line in 0..u64::MAX {
        if teller.is_lost() {
            return (line, End::NotWritten);
        }
        let Ok(read) = reader.next_line(source, &mut input) else {
            return (line, End::NotRead);
        };
        let ran = match read {
            None => return (line, End::Whole),
            Some(Line::At(from, to)) => run_line(
                &input[from..to],
                &mut bytes,
                &mut decoder,
                &mut encoder,
                &mut output,
            ),
            Some(Line::TooLong) => Ran::Bad(Fault::TooLong),
        };
        teller.tell(line + 1, ran, &bytes, &output);
    }
    if teller.is_lost() {
        return (u64::MAX, End::NotWritten);
    }
    (u64::MAX, End::Uncounted)
}

// Runs a line on the memories of both ends.
fn run_line(
    line: &[u8],
    bytes: &mut [u8],
    decoder: &mut [u8],
    encoder: &mut [u8],
    output: &mut [u8],
) -> Ran {
    match read_line(line, bytes) {
        Ok(None) => Ran::Comment,
        Ok(Some(call)) => {
            let r = perform_within(call, bytes, decoder, encoder, output);
            Ran::Answered(call, r)
        }
        Err(fault) => Ran::Bad(fault),
    }
}
