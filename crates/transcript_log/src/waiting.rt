// The blocks that wait.
ghost use Rattle.std.specs.Prelude.{◌≤◌};

use crate::log::Log;
use crate::tally::Count;
use labels::Part;
use link_notes::notes::{ALL_PARTS, Notes};
use text_io::print::Printer;

// The place of a stream's message; its trailer is behind it. A stream above 4,095 has none, and is given the one behind all.
fn first_of(stream: u64) -> usize
    ensures { result ≤ 8192 }
{
    if (ALL_PARTS / 2) as u64 <= stream {
        return ALL_PARTS;
    }
    stream as usize * 2
}

// How many parts from one place up to another have blocks that wait.
fn count(notes: &Notes, from: usize, to: usize) -> u64 {
    (from..to).filter(|k| notes.is_waiting(*k)).count() as u64
}

// In the order of streams, the message before the trailer, each but the first behind a comma.
fn list(log: &mut Log, from: usize, to: usize) {
    let mut before = "";
    for k in from..to {
        if log.notes.is_waiting(k) {
            write!(log.out, "{before}stream {} {}", k / 2, Part((k % 2) as u64));
            before = ", ";
        }
    }
}

// The line of a call; none at the end.
fn heading(out: &mut Printer, line: Option<u64>) {
    if let Some(n) = line {
        write!(out, "line {n}: ");
    }
    write!(out, "still waiting: ");
}

// Names and counts those from one place up to another, where there are any.
fn told(log: &mut Log, line: Option<u64>, from: usize, to: usize) {
    let n = count(log.notes, from, to);
    if n == 0 {
        return;
    }
    heading(&mut log.out, line);
    list(log, from, to);
    log.out.end_line();
    log.tally.add(Count::StillWaiting, n);
}

// All of them: at a start of the decoder with its line, at the end with none.
pub fn still_waiting(log: &mut Log, line: Option<u64>) {
    told(log, line, 0, ALL_PARTS);
}

// Those of a message, told as over at this line.
pub fn waiting_message(log: &mut Log, line: u64, stream: u64) {
    let at = first_of(stream);
    told(log, (line != 0).then_some(line), at, at + 1);
}

// Those of a stream, told as ended at this line.
pub fn waiting_stream(log: &mut Log, line: u64, stream: u64) {
    let at = first_of(stream);
    told(log, (line != 0).then_some(line), at, at + 2);
}
