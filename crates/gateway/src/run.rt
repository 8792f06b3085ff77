// One recording: what its blocks say, told line by line.
ghost use Rattle.std.specs.Prelude.{◌≡◌};

use link_notes::notes::Notes;
use machines::keep::Machines;
use recorded_lines::{End, Ran, Teller};
use text_io::incomplete::Why;
use text_io::print::Printer;
use text_io::source::Source;
use text_io::stream::Stream;
use transcript::calls::{answered, bad};
use transcript_log::broken_off::{break_off, ended};
use transcript_log::finish::finish;
use transcript_log::log::Log;

#[derive(Drop)]
struct Transcript<'a> {
    log: Log<'a>,
}

impl Teller for Transcript<'_> {
    ghost lost = { λ t. t.log.out.lost };

    fn is_lost(&self) -> bool {
        self.log.out.is_lost()
    }

    fn tell(&mut self, line: u64, ran: Ran, bytes: &[u8], output: &[u8]) {
        match ran {
            Ran::Comment => {}
            Ran::Bad(fault) => bad(&mut self.log, line, fault),
            Ran::Answered(call, r) => answered(&mut self.log, line, call, r, bytes, output),
        }
    }
}

// Runs a recording from fresh memory, and answers whether the output could be written.
pub fn run(rt: &HostRuntime, source: &mut Source) -> bool {
    let mut text = io::large_buffer();
    let mut notes = Notes::new();
    let mut machines = Machines::new();
    let out = Printer::new(Stream::Output(rt.stdout()), &mut text);
    let mut transcript = Transcript {
        log: Log::new(out, &mut notes, &mut machines),
    };
    let (lines, end) = recorded_lines::run(source, &mut transcript);
    match end {
        End::Whole => {
            finish(&mut transcript.log, lines);
            ended(rt, &transcript.log.out, lines)
        }
        End::NotRead => break_off(rt, lines.saturating_add(1), Why::NotRead, true),
        End::NotWritten => break_off(rt, lines, Why::NotWritten, false),
        End::Uncounted => true,
    }
}
