// What is noted of the blocks of each part of a stream. Streams above 4,095 and parts above 1 have no place: no block of theirs is done, and none
// waits.
ghost use Rattle.std.specs.Prelude.{◌≡◌, replicate};
ghost use Rattle.link_notes.specs.Notes.{place_of};
ghost use Rattle.link_notes.specs.Parts.{fresh_part, none_waiting, with_waiting, waits, answered, none_waits, is_waiting, forgotten};

use crate::waiting::Waiting;
use crate::written::Written;

const STREAMS: u64 = 4_096;

const PARTS: u64 = 2;

// How many blocks of a part are kept.
pub const KEPT: usize = 4;

// How many tables of the encoder have blocks that are kept.
pub const TABLES: usize = 2;

// How many parts all streams have.
pub const ALL_PARTS: usize = 8_192;

// Of one part: the blocks that were written last in each table, and those that wait.
#[derive(Clone, Copy)]
pub struct Part {
    pub written: [Written; TABLES],
    pub waiting: Waiting,
}

impl Part {
    // Nothing is noted of it.
    fn new() -> Part
        ensures { result ≡ fresh_part }
    {
        Part {
            written: [Written::new(); TABLES],
            waiting: Waiting::new(),
        }
    }

    // No block of it waits any more.
    fn forget_waiting(&mut self)
        ensures { self.new ≡ with_waiting none_waiting self.old }
    {
        self.waiting = Waiting::new();
    }
}

#[derive(Drop)]
pub struct Notes {
    pub parts: [Part; ALL_PARTS],
}

// Which one of all parts a part is.
pub fn place_of(stream: u64, part: u64) -> Option<usize>
    ensures { result ≡ place_of stream part }
{
    if stream < STREAMS && part < PARTS {
        return Some((stream * PARTS + part) as usize);
    }
    None
}

impl Notes {
    // Nothing is noted.
    pub fn new() -> Notes
        ensures { result.parts ≡ replicate 8192 fresh_part }
    {
        Notes {
            parts: [Part::new(); ALL_PARTS],
        }
    }

    // Notes that the block with this sum waits.
    pub fn note_waiting(&mut self, stream: u64, part: u64, sum: u64)
        ensures { self.new.parts ≡ waits self.old.parts (place_of stream part) sum }
    {
        let Some(at) = place_of(stream, part) else {
            return;
        };
        let waiting = &mut self.parts[at].waiting;
        if !waiting.has(sum) {
            waiting.add(sum);
        }
    }

    // The block with this sum was done or refused.
    pub fn note_answered(&mut self, stream: u64, part: u64, sum: u64)
        ensures { self.new.parts ≡ answered self.old.parts (place_of stream part) sum }
    {
        let Some(at) = place_of(stream, part) else {
            return;
        };
        self.parts[at].waiting.take_away(sum);
    }

    // No block of this part waits any more.
    pub fn note_over(&mut self, stream: u64, part: u64)
        ensures { self.new.parts ≡ none_waits self.old.parts (place_of stream part) }
    {
        let Some(at) = place_of(stream, part) else {
            return;
        };
        self.parts[at].forget_waiting();
    }

    // Does a block of the part at this place wait?
    pub fn is_waiting(&self, at: usize) -> bool
        ensures { result ≡ is_waiting self.now.parts at }
    {
        if ALL_PARTS <= at {
            return false;
        }
        self.parts[at].waiting.any()
    }

    // No block waits any more.
    pub fn forget_waiting(&mut self)
        ensures { self.new.parts ≡ forgotten self.old.parts }
    {
        for part in self.parts.iter_mut() {
            part.forget_waiting();
        }
    }
}
