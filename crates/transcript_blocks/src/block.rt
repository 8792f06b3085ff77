// A header block offered to the decoder: its line, and those behind it.
use falling_hours::falls::StreamHours;
use integers::answer::{DONE, WAITS};
use labels::{Answer, Part};
use link_notes::sums::block_sum;
use link_state::doubt::{Doubt, doubt_of};
use reply::Reply;
use reports::report::{NoReport, judge, judge_trailer, text_at};
use transcript_lines::hours;
use transcript_log::log::Log;
use transcript_log::tally::Count;

const TRAILER: u64 = 1;

// Which block was offered, and at which line.
#[derive(Clone, Copy)]
pub struct Offer {
    pub line: u64,
    pub stream: u64,
    pub part: u64,
}

// A block with these bytes, and the list that it gave where it is done.
pub fn offered(log: &mut Log, o: Offer, r: Reply, block: &[u8], given: &[u8]) {
    noted(log, o, r, block);
    write!(log.out, "stream {} {}: ", o.stream, Part(o.part));
    match r.number {
        DONE => done(log, o, block, given),
        WAITS => waits(log, r.first),
        number => refused(log, o, number),
    }
}

// Notes whether the block waits. It is known by its bytes: no list is given of it yet.
fn noted(log: &mut Log, o: Offer, r: Reply, block: &[u8]) {
    let sum = block_sum(block, b"");
    if r.number == WAITS {
        log.notes.note_waiting(o.stream, o.part, sum);
        return;
    }
    log.notes.note_answered(o.stream, o.part, sum);
}

fn waits(log: &mut Log, index: u32) {
    write!(log.out, "waits for index {index}");
    log.out.end_line();
    log.tally.add(Count::ToldToWait, 1);
}

fn refused(log: &mut Log, o: Offer, number: u8) {
    write!(log.out, "refused {number}: {}", Answer(number));
    log.out.end_line();
    log.tally.add(Count::BlocksRefused, 1);
    log.ends = log.ends.after_block(number, o.line);
}

fn done(log: &mut Log, o: Offer, block: &[u8], given: &[u8]) {
    log.tally.add(Count::BlocksDone, 1);
    write!(log.out, "done: ");
    readable::fields(&mut log.out, given);
    if o.part == TRAILER {
        trailer(log, given);
        return;
    }
    match doubt_of(log.ends, log.notes, o.stream, o.part, block, given) {
        None => message(log, o, given),
        Some(doubt) => doubted(log, doubt),
    }
}

// A message with unclear hours, before its fields are looked at.
fn doubted(log: &mut Log, doubt: Doubt) {
    match doubt {
        Doubt::Broken(line) => {
            write!(log.out, " = hours unclear: link broken at line {line}");
        }
        Doubt::NotAsWritten(table) => {
            write!(
                log.out,
                " = hours unclear: not as written for table {table}"
            );
        }
    }
    log.out.end_line();
    log.tally.add(Count::Unclear, 1);
}

// A trailer gives no hours.
fn trailer(log: &mut Log, given: &[u8]) {
    match judge_trailer(given) {
        Err(_) | Ok(None) => log.out.end_line(),
        Ok(Some(named)) => {
            hours::in_trailer(&mut log.out, named);
            log.tally.add(Count::Unclear, 1);
        }
    }
}

// A message that stands for what was written. The decoder gives nothing but field lists.
fn message(log: &mut Log, o: Offer, given: &[u8]) {
    match judge(given) {
        Err(NoReport::NoList) => log.out.end_line(),
        Err(NoReport::Unclear(named, why)) => {
            hours::no_report(&mut log.out, named, why);
            log.tally.add(Count::Unclear, 1);
        }
        Ok(report) => {
            hours::told(&mut log.out, report.tenths);
            compared(log, o, text_at(given, report.machine), report.tenths);
        }
    }
}

// A message whose hours are told, with the same machine's others.
fn compared(log: &mut Log, o: Offer, machine: &[u8], tenths: u32) {
    let report = StreamHours {
        stream: o.stream,
        tenths,
    };
    match log.machines.keep(machine, log.ends.decoder.table, report) {
        Err(_) => {
            hours::not_kept(&mut log.out, o.line, machine);
            log.tally.add(Count::NotKept, 1);
        }
        Ok(None) => {}
        Ok(Some(fall)) => {
            hours::falls(&mut log.out, o.line, machine, report, fall);
            log.tally.add(Count::Falls, 1);
        }
    }
}
