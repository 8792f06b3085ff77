// What is printed of a line.
use integers::answer::DONE;
use recording::Kind;
use reply::Reply;
use text_io::print::Printer;

// The answer with the told numbers, and what a done call wrote.
pub fn outcome(out: &mut Printer, kind: Kind, r: Reply, output: &[u8]) {
    write!(out, "{} {} {}", r.number, r.first, r.second);
    if r.number == DONE && kind.has_output() {
        written(out, output, r.first as usize);
    }
    out.byte(b'\n');
}

// The first `count` bytes of the output. No call answers that it wrote more than the output has.
fn written(out: &mut Printer, output: &[u8], count: usize) {
    out.byte(b' ');
    if count == 0 {
        out.byte(b'-');
        return;
    }
    match output.get(..count) {
        Some(bytes) => out.hex(bytes),
        None => out.byte(b'?'),
    }
}
