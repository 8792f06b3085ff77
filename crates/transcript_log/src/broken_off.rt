// A transcript that is not complete.
use text_io::incomplete::{Why, incomplete};
use text_io::print::Printer;
use text_io::stream::Stream;

// Was the end of the transcript written?
pub fn ended(rt: &HostRuntime, out: &Printer, number: u64) -> bool {
    if out.is_lost() {
        return break_off(rt, number, Why::NotWritten, false);
    }
    true
}

// Says that the transcript is not complete, as its last line and on standard error, and answers whether the output could be written.
pub fn break_off(rt: &HostRuntime, line: u64, why: Why, written: bool) -> bool {
    incomplete(Stream::Output(rt.stdout()), line, why);
    incomplete(Stream::Error(rt.stderr()), line, why);
    written
}
