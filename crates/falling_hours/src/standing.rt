// Where a machine stands.
ghost use Rattle.std.specs.Prelude.{◌≡◌};
ghost use Rattle.falling_hours.specs.Standing.{first_report, most_before, with_report, fall_from};

use crate::falls::{Fall, StreamHours};

// The decoder's table of a machine's latest report, the latest report, the most tenths of an hour in this table, and the most in earlier ones,
// 0 where there is none.
#[derive(Clone, Copy)]
pub struct Standing {
    pub table: u64,
    pub latest: StreamHours,
    pub most: u32,
    pub before: u32,
}

impl Standing {
    // A machine's first report.
    pub fn first(table: u64, report: StreamHours) -> Standing
        ensures { result ≡ first_report table report }
    {
        Standing {
            table,
            latest: report,
            most: report.tenths,
            before: 0,
        }
    }

    // The most hours in tables before this one.
    pub fn most_before(self, table: u64) -> u32
        ensures { result ≡ most_before self table }
    {
        if self.table < table {
            return self.before.max(self.most);
        }
        self.before
    }

    // What a report in this table falls against, if it does against the machine's latest.
    #[tactic(auto, unfolding(crate::specs::Standing::fall_from))]
    pub fn fall_from(self, table: u64, report: StreamHours) -> Option<Fall>
        ensures { result ≡ fall_from self table report }
    {
        let latest = self.latest;
        if self.table != table {
            return None;
        }
        if latest.stream <= report.stream {
            return (report.tenths < latest.tenths).then_some(Fall::Below(latest));
        }
        (latest.tenths < report.tenths).then_some(Fall::Above(latest))
    }

    // Where the machine stands after a report in its latest table or a later one.
    #[tactic(auto, using(crate::proofs::Latest::larger_is_later, crate::proofs::Latest::max_is_larger))]
    pub fn with_report(self, table: u64, report: StreamHours) -> Standing
        ensures { result ≡ with_report self table report }
    {
        if self.table < table {
            return Standing {
                table,
                latest: report,
                most: report.tenths,
                before: self.before.max(self.most),
            };
        }
        let latest = self.latest.max(report);
        let most = self.most.max(report.tenths);
        Standing {
            latest,
            most,
            ..self
        }
    }
}
