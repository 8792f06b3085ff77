// Does lent memory form an encoder's state?
ghost use Rattle.std.specs.Prelude.{◌≡◌, ℕ, ◌<◌, ◌≤◌, ◌&&◌, length};
ghost use Rattle.state.specs.Layout.{encoder_length, offset_at};
ghost use Rattle.state.specs.Forms.{each, text_ok, reference_ok, forms_encoder};

use crate::forms::{columns_ok, head_ok, text_ok};
use state::head::{count_of, delete_count};
use state::kept::horizon_at;
use state::layout::{ENCODER, ENCODER_LENGTH, LAST_SENT_INDEX, MOST_HORIZON};
use state::reference::{nontrailer_place, trailer_place};
use state::row::{DELETED, name_length_at, offset_at, status_at};

// Is the status of row `i` 0 or 1, and are its horizons in range?
fn reference_ok(m: &[u8], i: usize) -> bool
    requires { (i < 128) × (encoder_length ≤ length m.now) }
    ensures { result ≡ reference_ok m.now i }
{
    (status_at(m, i) <= DELETED)
        & (horizon_at(m, nontrailer_place(i)) <= MOST_HORIZON)
        & (horizon_at(m, trailer_place(i)) <= MOST_HORIZON)
}

// One pass over the rows: texts, statuses and horizons.
fn rows_form(m: &[u8], count: usize) -> bool
    requires { (count ≤ 128) × (offset_at m.now 0 ≡ 0) × (encoder_length ≤ length m.now) }
    ensures { result ≡ each (λ i. text_ok m.now i && reference_ok m.now i) count 0 }
{
    let mut ok = true;
    for i in 0..count {
        let text = text_ok(offset_at(m, i), offset_at(m, i + 1), name_length_at(m, i));
        ok = ok & (text & reference_ok(m, i));
    }
    ok
}

pub fn forms_encoder(m: &[u8]) -> bool
    ensures { result ≡ forms_encoder m.now }
{
    if !head_ok(m, ENCODER, ENCODER_LENGTH) {
        return false;
    }
    if delete_count(m) != 0 {
        return false;
    }
    let count = count_of(m) as usize;
    if !columns_ok(m, LAST_SENT_INDEX, count) {
        return false;
    }
    rows_form(m, count)
}
