// The machines that are kept, in the order of their first report, each with where it stands, and the reports of the decoder's table.
ghost use Rattle.std.specs.Prelude.{◌≡◌, ◌<◌, IfSome, replicate};

use crate::name::Name;
use falling_hours::falls::{Fall, Report, STREAMS, StreamHours, fall_at};
use falling_hours::standing::Standing;

// How many machines are kept.
pub const MACHINES: usize = 1_024;

#[derive(Clone, Copy)]
pub struct Machine {
    pub name: Name,
    pub standing: Standing,
}

#[derive(Drop)]
pub struct Machines {
    pub kept: [Option<Machine>; MACHINES],
    pub reports: [Option<Report>; STREAMS],
}

// No place is left for a machine.
#[derive(Clone, Copy, Debug, PartialEq, Eq)]
pub struct NotKept;

impl Machines {
    // No machine is kept, and the table has no report.
    pub fn new() -> Machines
        ensures kept { result.kept ≡ replicate 1024 None }
        ensures reports { result.reports ≡ replicate 4096 None }
    {
        Machines {
            kept: [None; MACHINES],
            reports: [None; STREAMS],
        }
    }

    // The place of the machine with this name; the first that is free, where it has none yet.
    fn place_of(&self, name: Name) -> Option<usize>
        ensures { IfSome result (λ i. i < 1024) }
    {
        self.kept
            .iter()
            .position(|place| place.is_none_or(|machine| machine.name == name))
    }

    // Keeps a report of the machine at this place, and answers what its hours fall against, which may be the machine's latest. No message is done
    // on a stream above 4,095.
    fn report(
        &mut self,
        i: usize,
        machine: Machine,
        before: u32,
        latest: Option<Fall>,
        report: StreamHours,
    ) -> Option<Fall>
        requires { i < 1024 }
    {
        self.kept[i] = Some(machine);
        if STREAMS as u64 <= report.stream {
            return None;
        }
        let on = report.stream as usize;
        let fall = fall_at(&self.reports, i, before, on, report.tenths);
        let tenths = match self.reports[on] {
            Some(other) if other.machine as usize == i => other.tenths.max(report.tenths),
            _ => report.tenths,
        };
        self.reports[on] = Some(Report {
            machine: i as u32,
            tenths,
        });
        fall.or(latest)
    }

    // Keeps a message whose hours are told, if its machine is kept, and compares it with the machine's others.
    pub fn keep(
        &mut self,
        name: &[u8],
        table: u64,
        report: StreamHours,
    ) -> Result<Option<Fall>, NotKept> {
        let name = Name::of(name);
        let i = self.place_of(name).ok_or(NotKept)?;
        let Some(machine) = self.kept[i] else {
            let standing = Standing::first(table, report);
            return Ok(self.report(i, Machine { name, standing }, 0, None, report));
        };
        let before = machine.standing.most_before(table);
        let latest = machine.standing.fall_from(table, report);
        let standing = machine.standing.with_report(table, report);
        Ok(self.report(i, Machine { name, standing }, before, latest, report))
    }

    // A table of the decoder begins: there is no report of it yet.
    pub fn begin_table(&mut self)
        ensures kept { self.new.kept ≡ self.old.kept }
        ensures reports { self.new.reports ≡ replicate 4096 None }
    {
        self.reports = [None; STREAMS];
    }
}
