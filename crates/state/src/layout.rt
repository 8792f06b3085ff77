// The places of the state memory; docs/STATE.md has them byte by byte. Head, marks, columns and text keep them in later requests.
ghost use Rattle.std.specs.Prelude.{◌≡◌, ℕ, ◌≤◌};
ghost use Rattle.state.specs.Layout.{delete_place};

// The bytes that each end lends. Longer memory is accepted, and what lies behind them is never touched.
pub const DECODER_LENGTH: usize = 35_912;

pub const ENCODER_LENGTH: usize = 16_960;

pub const DECODER: u8 = 1;

pub const ENCODER: u8 = 2;

pub const FEBRUARY: u8 = 2;

// The marks of the two kinds of parts.
pub const NONTRAILER_MARKS: usize = 64;

pub const TRAILER_MARKS: usize = 576;

// The columns. In front of the first index stands 61.
pub const INDEXES: usize = 1_092;

pub const OFFSETS: usize = 1_604;

pub const NAME_LENGTHS: usize = 1_862;

pub const STATUSES: usize = 1_990;

pub const TEXT: usize = 2_246;

// The decoder's deletes.
pub const DELETES: usize = 7_232;

// What tables may hold.
pub const PLACES: usize = 128;

pub const DELETE_PLACES: usize = 256;

pub const MOST_HELD: u16 = 4_096;

pub const MOST_VALUE: u16 = 2_047;

// What an entry's size has beside its name and its value.
pub const ENTRY_SIZE: usize = 32;

pub const LAST_SENT_INDEX: u32 = 189;

// What a stream list may hold, and the bytes of its places for streams.
pub const MOST_HORIZON: u16 = 4_096;

pub const MOST_LISTED: usize = 16;

pub const LISTED_BYTES: usize = 32;

// The bytes of a delete.
pub const DELETE_LENGTH: usize = 76;

// Where delete `k` stands.
pub fn delete_place(k: usize) -> usize
    requires { k ≤ 256 }
    ensures { result ≡ delete_place k }
{
    DELETES + DELETE_LENGTH * k
}
