// Runs the calls of recordings (docs/RECORDINGS.md), each file from fresh memory, and prints what each call answers. The arguments name
// the files, `-` for the standard input; with none, the standard input is run.
#![tactic(auto)]

mod outcome;
mod run;

use run::run;
use text_io::files::{is_argument, open_argument};
use text_io::incomplete::{Why, incomplete};
use text_io::source::Source;
use text_io::stream::Stream;

fn main(rt: HostRuntime) {
    if !is_argument(&rt, 1) {
        run(&rt, &mut Source::Input(rt.stdin()));
        return;
    }
    for i in 1..usize::MAX {
        if !is_argument(&rt, i) {
            return;
        }
        run_argument(&rt, i);
    }
}

// Runs the file that argument `i` names.
fn run_argument(rt: &HostRuntime, i: usize) {
    match open_argument(rt, i) {
        Some(mut source) => run(rt, &mut source),
        None => {
            incomplete(Stream::Error(rt.stderr()), 0, Why::NotOpened);
        }
    }
}
