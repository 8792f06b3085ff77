// How many of the streams below a number are marked, and which is the lowest: word by word.
ghost use Rattle.std.specs.Prelude.{◌≡◌, ℕ, ◌+◌, ◌≤◌, length};
ghost use Rattle.marks.specs.Marks.{is_set, count_from, lowest_from};

use crate::mark::{BYTE, WORD, power};
use memory::number::u64_at;

// How many streams below `end` are marked: all ones of the words below it, and the ones below it in its own word.
pub fn count_below(m: &[u8], at: usize, end: usize) -> usize
    requires { (end ≤ 4096) × (at + 512 ≤ length m.now) }
    ensures { result ≡ count_from (is_set m.now at) 0 end }
{
    let mut count: usize = 0;
    for w in 0..end / WORD {
        count += u64::count_ones(u64_at(m, at + WORD * w / BYTE)) as usize;
    }
    let s = end / WORD * WORD;
    if s < end {
        let word = u64_at(m, at + s / BYTE) % power((end - s) as u32);
        count += u64::count_ones(word) as usize;
    }
    count
}

// The lowest marked stream below `end`; `end` itself if there is none.
pub fn lowest_below(m: &[u8], at: usize, end: usize) -> usize
    requires { (end ≤ 4096) × (at + 512 ≤ length m.now) }
    ensures { result ≡ lowest_from (is_set m.now at) 0 end }
{
    for w in 0..(end + WORD - 1) / WORD {
        let s = WORD * w;
        let word = u64_at(m, at + s / BYTE);
        if word != 0 {
            let lowest = s + (u64::trailing_zeros(word) as usize);
            if lowest < end {
                return lowest;
            }
            return end;
        }
    }
    end
}
