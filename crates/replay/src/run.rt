// One recording: what each of its lines comes to.
ghost use Rattle.std.specs.Prelude.{◌≡◌};

use crate::outcome::outcome;
use recorded_lines::{End, Ran, Teller};
use text_io::incomplete::{Why, incomplete};
use text_io::print::Printer;
use text_io::source::Source;
use text_io::stream::Stream;

// The text of the answers.
#[derive(Drop)]
struct Answers<'a> {
    out: Printer<'a>,
}

impl Teller for Answers<'_> {
    ghost lost = { λ a. a.out.lost };

    fn is_lost(&self) -> bool {
        self.out.is_lost()
    }

    fn tell(&mut self, line: u64, ran: Ran, _bytes: &[u8], output: &[u8]) {
        match ran {
            Ran::Comment => {}
            Ran::Bad(_) => {
                writeln!(self.out, "line {line}: not a call");
            }
            Ran::Answered(call, r) => outcome(&mut self.out, call.kind, r, output),
        }
    }
}

pub fn run(rt: &HostRuntime, source: &mut Source) {
    let mut text = io::large_buffer();
    let mut answers = Answers {
        out: Printer::new(Stream::Output(rt.stdout()), &mut text),
    };
    let (lines, end) = recorded_lines::run(source, &mut answers);
    answers.out.flush();
    if answers.is_lost() {
        incomplete(Stream::Error(rt.stderr()), lines, Why::NotWritten);
        return;
    }
    if end == End::NotRead {
        incomplete(
            Stream::Error(rt.stderr()),
            lines.saturating_add(1),
            Why::NotRead,
        );
    }
}
