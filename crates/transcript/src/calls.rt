// The lines of a recording as they are run: calls, and lines that are none.
use integers::answer::DONE;
use link_events::events::{Event, Side, event_of, role_of, side_of};
use link_notes::sums::Block;
use recording::{Call, Fault, Kind};
use reply::Reply;
use transcript_blocks::block::{Offer, offered};
use transcript_lines::lines;
use transcript_log::log::Log;
use transcript_log::tally::Count;
use transcript_log::waiting::{still_waiting, waiting_message, waiting_stream};

const MESSAGE: u64 = 0;

const TRAILER: u64 = 1;

// The first `n` bytes, or all where there are not so many.
fn front(s: &[u8], n: usize) -> &[u8] {
    &s[..n.min(s.len())]
}

// A line that is no call.
pub fn bad(log: &mut Log, line: u64, fault: Fault) {
    lines::bad_line(&mut log.out, line, fault);
    log.tally.add(Count::BadLines, 1);
    log.ends = log.ends.after_bad_line(line);
}

// A call that was answered. Its bytes are the first of `bytes`, and what it wrote the first of `output`.
pub fn answered(log: &mut Log, line: u64, call: Call, r: Reply, bytes: &[u8], output: &[u8]) {
    log.tally.add(Count::Calls, 1);
    let put = front(bytes, call.end);
    let wrote = front(output, r.first as usize);
    if let Kind::DecoderBlock = call.kind {
        let o = Offer {
            line,
            stream: call.first,
            part: call.second,
        };
        offered(log, o, r, put, wrote);
        return;
    }
    other(log, line, call, r);
    if r.number == DONE {
        noted(log, line, call, put, wrote);
    }
}

// How many bytes of a read are left over.
fn left_over(count: usize, taken: u32) -> u64 {
    let n = count as u64;
    n.saturating_sub(u64::from(taken))
}

// Another call than a block offered to the decoder.
fn other(log: &mut Log, line: u64, call: Call, r: Reply) {
    let kind = call.kind;
    let side = side_of(kind);
    let role = role_of(kind);
    let event = event_of(role, r.number, left_over(call.end, r.first));
    log.ends = log.ends.after_call(side, role, event, line);
    match event {
        None => {}
        Some(Event::Started) => started(log, line, side),
        Some(Event::LeftOver(count)) => {
            lines::left_line(&mut log.out, line, kind, count);
            log.tally.add(Count::LeftOver, 1);
        }
        Some(Event::CutShort) => {
            lines::cut_line(&mut log.out, line, kind);
            log.tally.add(Count::CutShort, 1);
        }
        Some(Event::Refused) => {
            lines::refused_line(&mut log.out, line, kind, r.number);
            log.tally.add(Count::CallsRefused, 1);
        }
    }
}

// A start that is done: what was noted of the end's tables before is forgotten.
fn started(log: &mut Log, line: u64, side: Side) {
    match side {
        Side::Decoder => {
            still_waiting(log, (line != 0).then_some(line));
            log.notes.forget_waiting();
            log.machines.begin_table();
            let table = log.ends.decoder.table;
            anew(log, line, "decoder", table);
        }
        Side::Encoder => {
            let table = log.ends.encoder.table;
            log.notes.begin_table(table);
            anew(log, line, "encoder", table);
        }
    }
}

// That an end starts anew: nothing is told of its first table.
fn anew(log: &mut Log, line: u64, end: &str, table: u64) {
    if 1 < table {
        write!(log.out, "line {line}: {end} starts anew: table {table}");
        log.out.end_line();
    }
}

// Notes what a call that is done says of blocks: the encoder wrote one, or none of a stream, or of its message, waits any more. Those that did
// are named before.
fn noted(log: &mut Log, line: u64, call: Call, put: &[u8], wrote: &[u8]) {
    let stream = call.first;
    match call.kind {
        Kind::EncoderBlock => {
            let block = Block::of(wrote, put);
            log.notes
                .note_written(log.ends.encoder.table, stream, call.second, block);
        }
        Kind::DecoderOver => {
            waiting_message(log, line, stream);
            log.notes.note_over(stream, MESSAGE);
        }
        Kind::DecoderEnded => {
            waiting_stream(log, line, stream);
            log.notes.note_over(stream, MESSAGE);
            log.notes.note_over(stream, TRAILER);
        }
        _ => {}
    }
}
