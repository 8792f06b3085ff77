// A perfect hash of the static names: length, first and last byte of a name leave one entry to compare.
ghost use Rattle.std.specs.Prelude.{◌≡◌, ℕ, ◌≤◌, length};
ghost use Rattle.statics.specs.Table.{last_static};
ghost use Rattle.static_search.specs.Hash.{hash_of, hashed_of, stored_of};

use integers::byte::wide;
use integers::number::TableIndex;

// How many hashes there are: few enough that the names take more than two fifths of them, since then the compiler makes a table of the `match` below.
const HASHES: u32 = 128;

// What the length, the first and the last byte count, so that no two names have one hash.
const OF_LENGTH: u32 = 121;

const OF_FIRST: u32 = 2;

const OF_LAST: u32 = 33;

// A length and an index stand in one number: the length this many times, and the index, which is less.
const INDEXES: u32 = 256;

// What a hash leaves: an entry, and how many bytes its name has, so that a name of another length is refused at once.
#[derive(Drop)]
pub struct Hashed {
    pub index: TableIndex,
    pub length: usize,
}

pub fn name_hash(name: &[u8]) -> u32
    requires { 1 ≤ length name.now }
    ensures { result ≡ hash_of name.now }
{
    let n = name.len();
    let length = (n % HASHES as usize) as u32;
    (OF_LENGTH * length + OF_FIRST * wide(name[0]) + OF_LAST * wide(name[n - 1])) % HASHES
}

// The lowest entry whose name has this hash. No two names of the table have the same; any other hash gives the first entry, and 0 as length.
pub fn hashed_entry(hash: u32) -> Hashed
    ensures value { result ≡ hashed_of hash }
    ensures le_value { (1 ≤ result.index.value) × (result.index.value ≤ last_static) }
{
    let stored = stored_entry(hash);
    Hashed {
        index: TableIndex::new(stored % INDEXES),
        length: (stored / INDEXES) as usize,
    }
}

#[tactic(auto, unfolding(crate::specs::Hash::stored_of, crate::specs::Hash::hashed_of, crate::specs::Hash::hash_of, crate::specs::Search::lowest_static, statics::specs::Table::entry_at, statics::specs::Table::entries))]
fn stored_entry(hash: u32) -> u32
    ensures { result ≡ stored_of hash }
{
    match hash {
        2 => 2_087,
        3 => 4_157,
        4 => 4_125,
        7 => 1_069,
        9 => 4_913,
        12 => 1_555,
        20 => 1_571,
        21 => 3_351,
        22 => 1_800,
        24 => 2_618,
        27 => 1_844,
        29 => 4_122,
        31 => 2_090,
        32 => 3_856,
        33 => 1_568,
        37 => 2_615,
        39 => 1_794,
        40 => 1_062,
        49 => 1_057,
        50 => 789,
        51 => 6_932,
        56 => 4_409,
        57 => 1_284,
        58 => 3_346,
        61 => 1_061,
        70 => 1_330,
        71 => 2_561,
        72 => 1_798,
        73 => 2_869,
        76 => 3_612,
        78 => 2_094,
        80 => 6_456,
        82 => 4_907,
        84 => 3_599,
        87 => 3_352,
        88 => 828,
        89 => 3_119,
        91 => 4_123,
        94 => 3_857,
        95 => 3_369,
        96 => 4_392,
        97 => 3_372,
        101 => 1_843,
        103 => 4_656,
        105 => 1_083,
        108 => 1_828,
        110 => 1_590,
        111 => 4_889,
        112 => 3_358,
        117 => 1_058,
        118 => 1_302,
        119 => 3_103,
        _ => 1,
    }
}
