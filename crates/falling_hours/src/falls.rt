// Hours that fall: a later table, a higher stream of the same table, or a later message of the same stream has fewer hours.
ghost use Rattle.std.specs.Prelude.{◌≡◌, ◌-◌, ◌≤◌, Bool, true, false};
ghost use Rattle.falling_hours.specs.declared.falls.Report.{Report};
ghost use Rattle.falling_hours.specs.Falls.{is_apart, lowest_from, fall_of, fall_at};

pub const STREAMS: usize = 4_096;

// A machine's report on a stream, with the most tenths of an hour of its reports there. The machine is named by its place among those kept.
#[derive(Clone, Copy)]
pub struct Report {
    pub machine: u32,
    pub tenths: u32,
}

// A stream, and the tenths of an hour that a machine reported there. Of two on one stream the one with more hours is the later one.
#[derive(Clone, Copy, PartialEq, Eq, PartialOrd, Ord)]
pub struct StreamHours {
    pub stream: u64,
    pub tenths: u32,
}

// What a report falls against: the most hours before the start, a lower stream or its own with more, or a higher one with fewer.
#[derive(Clone, Copy)]
pub enum Fall {
    BeforeStart(u32),
    Below(StreamHours),
    Above(StreamHours),
}

// The lowest stream from `from` up to `to` with such a report.
fn lowest<F: Fn(Report) -> bool>(
    reports: &[Option<Report>; STREAMS],
    from: usize,
    to: usize,
    is_apart: F,
) -> Option<StreamHours>
    requires range { to ≤ 4096 }
    requires callable { F.IsAlwaysCallable is_apart }
    ensures { (test : Report → Bool) → ((r : Report) (b : Bool) → F.post is_apart r b → b ≡ test r) → result ≡ lowest_from reports.now test (to - from) from }
{
    for s in from..to {
        if let Some(report) = reports[s]
            && is_apart(report)
        {
            return Some(StreamHours {
                stream: s as u64,
                tenths: report.tenths,
            });
        }
    }
    None
}

// The first that applies.
fn first_fall(
    before: u32,
    tenths: u32,
    below: Option<StreamHours>,
    above: Option<StreamHours>,
) -> Option<Fall>
    ensures { result ≡ fall_of before tenths below above }
{
    if tenths < before {
        return Some(Fall::BeforeStart(before));
    }
    below.map(Fall::Below).or(above.map(Fall::Above))
}

// What a report on this stream falls against, where the machine had at most `before` tenths in earlier tables.
pub fn fall_at(
    reports: &[Option<Report>; STREAMS],
    machine: usize,
    before: u32,
    stream: usize,
    tenths: u32,
) -> Option<Fall>
    requires { stream ≤ 4095 }
    ensures { result ≡ fall_at reports.now machine before stream tenths }
{
    let below = lowest(
        reports,
        0,
        stream + 1,
        |r: Report| r.machine as usize == machine && tenths < r.tenths,
    );
    let above = lowest(
        reports,
        stream + 1,
        STREAMS,
        |r: Report| r.machine as usize == machine && r.tenths < tenths,
    );
    first_fall(before, tenths, below, above)
}
