// An entry taken out: rows and text behind it close up, so that no hole is left.
ghost use Rattle.std.specs.Prelude.{◌≡◌};
ghost use Rattle.table.specs.Changes.{Removing, removed};

use memory::copy::move_down;
use state::head::count_of;
use state::layout::{ENTRY_SIZE, TEXT};
use state::row::{offset_at, text_length_at};
use table_rows::{close_row, record_removal};

pub fn remove(m: &mut [u8], place: usize)
    requires { Removing m.old place }
    ensures { m.new ≡ removed m.old place }
{
    let count = count_of(m) as usize;
    let offset = offset_at(m, place) as usize;
    let text = text_length_at(m, place);
    let left = (offset_at(m, count) as usize) - (offset + text);
    record_removal(m, (text + ENTRY_SIZE) as u16);
    close_row(m, place, count, text as u32);
    move_down(m, TEXT + offset, TEXT + (offset + text), left);
}
