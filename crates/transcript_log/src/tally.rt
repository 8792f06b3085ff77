// How many of each kind there were.
ghost use Rattle.std.specs.Prelude.{◌≡◌, ◌≤◌};
ghost use Rattle.transcript_log.specs.Tally.{place_of, more};

// How many kinds are counted.
pub const COUNTS: usize = 12;

// What is counted, in the order of the last line: calls and bad lines; of the blocks offered to the decoder those done and refused, the offers
// told to wait, and the blocks still waiting; of the other calls those refused, cut short and with bytes left over; and blocks with unclear
// hours, messages whose hours fall, and reports of machines that are not kept.
#[derive(Clone, Copy, Debug, PartialEq, Eq)]
pub enum Count {
    Calls,
    BadLines,
    BlocksDone,
    BlocksRefused,
    ToldToWait,
    StillWaiting,
    CallsRefused,
    CutShort,
    LeftOver,
    Unclear,
    Falls,
    NotKept,
}

#[derive(Clone, Copy)]
pub struct Tally {
    pub counts: [u64; COUNTS],
}

fn place(count: Count) -> usize
    ensures value { result ≡ place_of count }
    ensures bound { result ≤ 11 }
{
    count as usize
}

impl Tally {
    pub fn new() -> Tally {
        Tally {
            counts: [0u64; COUNTS],
        }
    }

    // This many more.
    pub fn add(&mut self, count: Count, n: u64)
        ensures { self.new.counts ≡ more self.old.counts (place_of count) n }
    {
        let k = place(count);
        self.counts[k] = self.counts[k].saturating_add(n);
    }

    fn has(self, count: Count) -> bool {
        let k = place(count);
        0 < self.counts[k]
    }

    // May a report be missing? All that `bin/gateway` takes for a fault, but for hours that fall and machines that are not kept.
    pub fn may_miss_reports(self) -> bool {
        self.has(Count::BadLines)
            | self.has(Count::BlocksRefused)
            | self.has(Count::StillWaiting)
            | self.has(Count::CallsRefused)
            | self.has(Count::LeftOver)
            | self.has(Count::Unclear)
    }
}
