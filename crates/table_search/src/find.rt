// An entry by its index, and the lowest vacant index.
ghost use Rattle.std.specs.Prelude.{◌≡◌, ℕ, ◌+◌, ◌≤◌, ◌<◌};
ghost use Rattle.state.specs.Layout.{count_of, index_at};
ghost use Rattle.table_search.specs.Search.{Ordered, find_from, vacant_row};

use integers::number::TableIndex;
use state::head::count_of;
use state::row::index_at;

// Walks down from row `from`, which is above the index if there is one, to the row with this index.
fn find_below(m: &[u8], index: TableIndex, from: usize) -> Result<usize, usize>
    requires { Ordered m.now × (from ≤ count_of m.now) × (from < count_of m.now → index.value < index_at m.now from) }
    ensures { result ≡ find_from m.now index.value (count_of m.now) 0 }
{
    let x = index.value;
    for row in (0..from).rev() {
        let y = index_at(m, row);
        if y <= x {
            if y == x {
                return Ok(row);
            }
            return Err(row + 1);
        }
    }
    Err(0)
}

// Finds the row with this index. Rows ascend from 62, so it stands at the place index - 62 or below. In a dense table it stands there: that one look is
// made here, so that callers have it inlined.
pub fn find(m: &[u8], index: TableIndex) -> Result<usize, usize>
    requires { (62 ≤ index.value) × Ordered m.now }
    ensures { result ≡ find_from m.now index.value (count_of m.now) 0 }
{
    let count = count_of(m) as usize;
    let first = (index.value - TableIndex::FIRST) as usize;
    if count <= first {
        return find_below(m, index, count);
    }
    if index_at(m, first) == index.value {
        return Ok(first);
    }
    find_below(m, index, first)
}

// The place of the lowest vacant index, which is 62 and that place.
pub fn lowest_vacant(m: &[u8]) -> usize
    requires { Ordered m.now }
    ensures { result ≡ vacant_row m.now (count_of m.now) 0 }
{
    // The rows below `low` have the indexes from 62 on, and the row at `high` does not, if there is one. A row has its own only where all before it have theirs.
    // No `partition_point`: the rows are bytes of lent memory, and no slice of rows.
    let mut low: usize = 0;
    let mut high = count_of(m) as usize;
    while low < high {
        let i = low + (high - low) / 2;
        if index_at(m, i) == TableIndex::FIRST + (i as u32) {
            low = i + 1;
        } else {
            high = i;
        }
    }
    low
}
