// Whether the hours of a message can be told at all, before its fields are looked at.
ghost use Rattle.std.specs.Prelude.{◌≡◌};
ghost use Rattle.link_state.specs.Doubts.{doubt_of};

use crate::written::as_written;
use link_events::ends::Ends;
use link_notes::notes::Notes;
use link_notes::sums::Block;

// Why the hours of a message cannot be told before its fields are looked at: the link is broken, at this line, or the block is not as it was
// written for this table.
#[derive(Clone, Copy)]
pub enum Doubt {
    Broken(u64),
    NotAsWritten(u64),
}

#[tactic(auto, unfolding(crate::specs::Doubts::doubt_of))]
pub fn doubt_of(
    ends: Ends,
    notes: &Notes,
    stream: u64,
    part: u64,
    block: &[u8],
    given: &[u8],
) -> Option<Doubt>
    ensures { result ≡ doubt_of ends notes.now.parts stream part block.now given.now }
{
    if let Some(line) = ends.broken_line() {
        return Some(Doubt::Broken(line));
    }
    let table = ends.decoder.table;
    let found = notes.is_written(table, stream, part, Block::of(block, given));
    if as_written(table, ends.encoder.table, found) {
        return None;
    }
    Some(Doubt::NotAsWritten(table))
}
