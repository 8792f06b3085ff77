// What a line says of the hours of a block, and the lines behind it.
use falling_hours::falls::{Fall, StreamHours};
use falling_hours::standing::Standing;
use readable::hours::Hours;
use readable::name;
use reports::report::{Named, Why};
use text_io::print::Printer;

// ` = HOURS hours`
pub fn told(out: &mut Printer, tenths: u32) {
    write!(out, " = {} hours", Hours(tenths));
    out.end_line();
}

fn field_name(named: Named) -> &'static str {
    match named {
        Named::Machine => "machine",
        Named::Hours => "hours",
        Named::Turns => "turns",
    }
}

// How a field fails.
fn failing(named: Named, why: Why) -> &'static str {
    match why {
        Why::Missing => "missing",
        Why::MoreThanOnce => "more than once",
        Why::OutOfRange => match named {
            Named::Machine => "not 1 to 15 printable characters",
            Named::Hours | Named::Turns => "not a number of 0 to 65535",
        },
    }
}

// That hours are unclear, the field by which they are, and how.
fn unclear(out: &mut Printer, named: Named, how: &str) {
    write!(out, " = hours unclear: {} {how}", field_name(named));
    out.end_line();
}

// The block is no report.
pub fn no_report(out: &mut Printer, named: Named, why: Why) {
    unclear(out, named, failing(named, why));
}

pub fn in_trailer(out: &mut Printer, named: Named) {
    unclear(out, named, "in a trailer");
}

// `line LINE: machine MACHINE`
fn of_machine(out: &mut Printer, line: u64, machine: &[u8]) {
    write!(out, "line {line}: machine ");
    name(out, machine);
}

pub fn not_kept(out: &mut Printer, line: u64, machine: &[u8]) {
    of_machine(out, line, machine);
    write!(out, ": not kept");
    out.end_line();
}

// Two reports of one table, the higher stream first.
fn two(out: &mut Printer, higher: StreamHours, lower: StreamHours) {
    write!(
        out,
        "{} on stream {}, {} on stream {}",
        Hours(higher.tenths),
        higher.stream,
        Hours(lower.tenths),
        lower.stream
    );
}

// What the hours of the message on this stream fall against.
fn against(out: &mut Printer, report: StreamHours, fall: Fall) {
    match fall {
        Fall::BeforeStart(most) => {
            write!(
                out,
                "{} on stream {}, {} before the start",
                Hours(report.tenths),
                report.stream,
                Hours(most)
            );
        }
        Fall::Below(lower) => two(out, report, lower),
        Fall::Above(higher) => two(out, higher, report),
    }
}

// The line of hours that fall.
pub fn falls(out: &mut Printer, line: u64, machine: &[u8], report: StreamHours, fall: Fall) {
    of_machine(out, line, machine);
    write!(out, ": hours fall: ");
    against(out, report, fall);
    out.end_line();
}

// Where a machine stands, at the end. Where a later report may be missing, these are the fewest hours that it can have.
pub fn standing(out: &mut Printer, machine: &[u8], s: Standing, may_miss: bool) {
    write!(out, "machine ");
    name(out, machine);
    write!(
        out,
        ": {} hours{}, table {}, stream {}",
        Hours(s.latest.tenths),
        if may_miss { " or more" } else { "" },
        s.table,
        s.latest.stream
    );
    out.end_line();
}
