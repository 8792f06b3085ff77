// The end of a transcript: blocks that still wait, where each machine stands, and how many of each kind there were.
use crate::log::Log;
use crate::tally::Tally;
use crate::waiting::still_waiting;
use machines::keep::MACHINES;
use text_io::print::Printer;
use transcript_lines::hours::standing;

// The machines that are kept, in the order of their first report. They are told by their places, since the printer lies beside them.
fn each_machine(log: &mut Log, may_miss: bool) {
    for i in 0..MACHINES {
        if let Some(machine) = log.machines.kept[i] {
            standing(
                &mut log.out,
                machine.name.text(),
                machine.standing,
                may_miss,
            );
        }
    }
}

// The last line.
fn complete(out: &mut Printer, lines: u64, tally: Tally) {
    let [
        calls,
        bad,
        done,
        refused,
        told,
        waiting,
        others,
        cut,
        left,
        unclear,
        falls,
        not_kept,
    ] = tally.counts;
    write!(
        out,
        "complete: {lines} lines, {calls} calls, {bad} bad lines; "
    );
    write!(
        out,
        "blocks: {done} done, {refused} refused, {told} told to wait, {waiting} still waiting; "
    );
    write!(
        out,
        "other calls: {others} refused, {cut} cut short, {left} with bytes left over; "
    );
    write!(
        out,
        "hours: {unclear} unclear, {falls} falls, {not_kept} not kept"
    );
    out.end_line();
}

// The transcript of so many lines ends: its text.
pub fn finish(log: &mut Log, lines: u64) {
    still_waiting(log, None);
    let tally = log.tally;
    each_machine(log, tally.may_miss_reports());
    complete(&mut log.out, lines, tally);
}
