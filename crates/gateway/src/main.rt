// Runs the calls of recordings (docs/RECORDINGS.md) and prints what each header block that was offered to the decoder says: its fields, the
// hours of the machine that they report, or what the block waits for, or why it is refused; and at the end where each machine stands. Each
// argument names a file, `-` the standard input; with none, the sample recording is run.
#![tactic(auto)]

mod run;

use run::run;
use std::env::Env;
use text_io::files::{is_argument, open_argument, open_read};
use text_io::incomplete::Why;
use text_io::source::Source;
use text_io::stream::Stream;
use tokens::is;
use transcript_log::broken_off::break_off;

fn main(rt: HostRuntime) {
    if !is_argument(&rt, 1) {
        run_opened(&rt, open_read(&rt, b"crates/gateway/data/accident.rec"));
        return;
    }
    if says_itself(&rt) {
        return;
    }
    for i in 1..usize::MAX {
        if !is_argument(&rt, i) {
            return;
        }
        if !run_opened(&rt, open_argument(&rt, i)) {
            return;
        }
    }
}

// Runs the file, if it was opened, and answers whether the output could be written.
fn run_opened(rt: &HostRuntime, opened: Option<Source>) -> bool {
    match opened {
        Some(mut source) => run(rt, &mut source),
        None => break_off(rt, 0, Why::NotOpened, true),
    }
}

// Is the first argument an option? Then what it asks for is printed.
fn says_itself(rt: &HostRuntime) -> bool {
    let mut word = io::buffer();
    let Ok(n) = rt.arg(1, &mut word) else {
        return false;
    };
    let output = Stream::Output(rt.stdout());
    if is(&word[..n], b"--help") {
        output.write(
            b"usage: gateway [FILE.. | - | --help | --version]\n\
            Runs recorded calls of a header table and prints what each header block says, with the machine's hours.\n\
            Without an argument, in the root of the repository, the sample recording is run.\n",
        );
        return true;
    }
    if is(&word[..n], b"--version") {
        output.write(b"gateway 1.6.0\n");
        return true;
    }
    false
}
