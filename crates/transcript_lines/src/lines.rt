// The lines of calls, each written as it ends.
use labels::Answer;
use recording::{Fault, Kind};
use text_io::print::Printer;

// Another call than the offer of a block that is refused.
pub fn refused_line(out: &mut Printer, line: u64, kind: Kind, answer: u8) {
    write!(
        out,
        "line {line}: {kind} refused {answer}: {}",
        Answer(answer)
    );
    out.end_line();
}

// A read that is cut short.
pub fn cut_line(out: &mut Printer, line: u64, kind: Kind) {
    write!(out, "line {line}: {kind} cut short");
    out.end_line();
}

// A read that left bytes over.
pub fn left_line(out: &mut Printer, line: u64, kind: Kind, count: u64) {
    write!(out, "line {line}: {kind}: {count} bytes left over");
    out.end_line();
}

// A line that is no call.
pub fn bad_line(out: &mut Printer, line: u64, fault: Fault) {
    write!(out, "line {line}: not a call: {fault}");
    out.end_line();
}
