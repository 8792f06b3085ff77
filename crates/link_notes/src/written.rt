// The blocks that were written: the last four of each part for each of two tables of the encoder.
ghost use Rattle.std.specs.Prelude.{◌≡◌, ◌<◌};
ghost use Rattle.link_notes.specs.Notes.{place_of, half_of, pushed, has_sum, has_other};
ghost use Rattle.link_notes.specs.Parts.{none_written, with_written, written_in, noted, as_noted, is_noted, begun};

use crate::notes::{KEPT, Notes, Part, TABLES, place_of};
use crate::sums::Block;
use std::marker::Model;

// Which of the two tables: two after one another have places of their own.
fn half_of(table: u64) -> usize
    ensures { result ≡ half_of table }
{
    (table % TABLES as u64) as usize
}

// The last blocks of one part in one table, the newest first.
#[derive(Clone, Copy)]
pub struct Written {
    blocks: [Block; KEPT],
}

impl Model for Written {
    ghost use Rattle.std.specs.Prelude.{List};
    ghost use Rattle.link_notes.specs.declared.sums.Block.{Block as SummedBlock};

    ghost Value = { List SummedBlock };

    ghost view = { λ w. w.blocks };

    ghost inverse = { λ l. record { blocks = l } };
}

impl Written {
    // None is written.
    pub fn new() -> Written
        ensures { result ≡ none_written }
    {
        Written {
            blocks: [Block::NONE; KEPT],
        }
    }

    // A block, before the others; the last of them is lost.
    fn push(&mut self, block: Block)
        ensures { self.new ≡ pushed self.old block }
    {
        self.blocks.rotate_right(1);
        self.blocks[0] = block;
    }

    fn has_sum(&self, sum: u64) -> bool
        ensures { result ≡ has_sum self.now sum }
    {
        self.blocks.iter().any(|block| block.sum == sum)
    }

    // Is one of these a block of the same bytes and another list?
    fn has_other(&self, block: Block) -> bool
        ensures { result ≡ has_other self.now block }
    {
        self.blocks.iter().any(|other| other.bytes == block.bytes && other.sum != block.sum)
    }

    // Is the block one of these, and none of them another one of the same bytes?
    fn as_noted(&self, block: Block) -> bool
        ensures { result ≡ as_noted self.now block }
    {
        self.has_sum(block.sum) && !self.has_other(block)
    }
}

impl Part {
    // Nothing is written of it in this half.
    fn begin(&mut self, half: usize)
        requires { half < 2 }
        ensures { self.new ≡ with_written half none_written self.old }
    {
        self.written[half] = Written::new();
    }

    // A block of it that was written in this half.
    fn push(&mut self, half: usize, block: Block)
        requires { half < 2 }
        ensures { self.new ≡ with_written half (pushed (written_in half self.old) block) self.old }
    {
        self.written[half].push(block);
    }

    // Is this a block that was written in this half, and was none written there with the same bytes and another list?
    fn as_noted(&self, half: usize, block: Block) -> bool
        requires { half < 2 }
        ensures { result ≡ as_noted (written_in half self.now) block }
    {
        self.written[half].as_noted(block)
    }
}

impl Notes {
    // Notes a block that the encoder wrote in this table.
    pub fn note_written(&mut self, table: u64, stream: u64, part: u64, block: Block)
        ensures { self.new.parts ≡ noted self.old.parts (half_of table) (place_of stream part) block }
    {
        let half = half_of(table);
        let Some(at) = place_of(stream, part) else {
            return;
        };
        self.parts[at].push(half, block);
    }

    // Is this a block that was written in this table, which is one of the last two, and was none written with the same bytes and another list?
    pub fn is_written(&self, table: u64, stream: u64, part: u64, block: Block) -> bool
        ensures { result ≡ is_noted self.now.parts (half_of table) (place_of stream part) block }
    {
        let half = half_of(table);
        let Some(at) = place_of(stream, part) else {
            return false;
        };
        self.parts[at].as_noted(half, block)
    }

    // A table of the encoder begins: nothing is written in it yet.
    pub fn begin_table(&mut self, table: u64)
        ensures { self.new.parts ≡ begun self.old.parts (half_of table) }
    {
        let half = half_of(table);
        for part in self.parts.iter_mut() {
            part.begin(half);
        }
    }
}
