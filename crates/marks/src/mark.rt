// The mark of one stream, tested and cleared, and all marks set.
ghost use Rattle.std.specs.Prelude.{◌≡◌, true, ℕ, ◌+◌, ◌^◌, ◌≤◌, ◌<◌, length};
ghost use Rattle.memory.specs.Bytes.{overlay};
ghost use Rattle.marks.specs.Marks.{is_set, cleared, words_bytes};

use integers::number::StreamNumber;
use memory::number::{put_u64, u64_at};

// The streams of a byte and of a word, a word's bytes, and the words of all streams.
pub const BYTE: usize = 8;

pub const WORD: usize = 64;

const WORD_BYTES: usize = 8;

const WORDS: usize = 64;

// A word in which every stream is marked.
const ALL: u64 = 18_446_744_073_709_551_615;

// The bit of a stream in its word.
pub fn power(k: u32) -> u64
    requires { k < 64 }
    ensures { result ≡ 2 ^ k }
{
    1u64 << k
}

// Is the stream marked, in the marks that start at the place `at`?
pub fn is_set(m: &[u8], at: usize, stream: StreamNumber) -> bool
    requires { (stream.value < 4096) × (at + 512 ≤ length m.now) }
    ensures { result ≡ is_set m.now at stream.value }
{
    let s = stream.value as usize;
    let word = u64_at(m, at + WORD_BYTES * (s / WORD));
    word / power((s % WORD) as u32) % 2 == 1
}

// Takes the stream's mark away, if it is there.
pub fn clear(m: &mut [u8], at: usize, stream: StreamNumber)
    requires { (stream.value < 4096) × (at + 512 ≤ length m.old) }
    ensures { m.new ≡ cleared m.old at stream.value }
{
    if !is_set(m, at, stream) {
        return;
    }
    let s = stream.value as usize;
    let place = at + WORD_BYTES * (s / WORD);
    let word = u64_at(m, place);
    put_u64(m, place, word - power((s % WORD) as u32));
}

// Marks every stream.
pub fn set_all(m: &mut [u8], at: usize)
    requires { at + 512 ≤ length m.old }
    ensures { m.new ≡ overlay m.old at (words_bytes (λ s. true) 0 64) }
{
    for w in 0..WORDS {
        put_u64(m, at + WORD_BYTES * w, ALL);
    }
}
