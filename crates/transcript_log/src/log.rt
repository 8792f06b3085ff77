// What was told and noted so far: the link as it is then, the counts, the text, the blocks, and the machines.
use crate::tally::Tally;
use link_events::ends::Ends;
use link_notes::notes::Notes;
use machines::keep::Machines;
use text_io::print::Printer;

#[derive(Drop)]
pub struct Log<'a> {
    pub ends: Ends,
    pub tally: Tally,
    pub out: Printer<'a>,
    pub notes: &'a mut Notes,
    pub machines: &'a mut Machines,
}

impl<'a> Log<'a> {
    // Nothing is told yet.
    pub fn new(out: Printer<'a>, notes: &'a mut Notes, machines: &'a mut Machines) -> Log<'a> {
        Log {
            ends: Ends::new(),
            tally: Tally::new(),
            out,
            notes,
            machines,
        }
    }
}
