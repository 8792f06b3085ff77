// A fresh state: an empty table with this limit, and every part unfinished or not yet written. The rest of the memory keeps what it held.
ghost use Rattle.std.specs.Prelude.{◌≡◌, ℕ, ◌≤◌, length};
ghost use Rattle.memory.specs.Bytes.{overlay};
ghost use Rattle.state.specs.Layout.{front_length};
ghost use Rattle.state.specs.Front.{head_bytes};
ghost use Rattle.table.specs.Changes.{fresh_front, started};

use marks::mark::set_all;
use memory::copy::put_zeros;
use state::head::{
    EDITION, HEAD_REST, HEAD_ZEROS, ROLE, put_count, put_delete_count, put_held, put_limit,
};
use state::layout::{FEBRUARY, NONTRAILER_MARKS, TRAILER_MARKS};
use state::row::put_no_rows;

// The head of an empty table.
fn put_head(m: &mut [u8], role: u8, limit: u16)
    requires { front_length ≤ length m.old }
    ensures { m.new ≡ overlay m.old 0 (head_bytes (fresh_front role limit)) }
{
    m[ROLE] = role;
    m[EDITION] = FEBRUARY;
    put_limit(m, limit);
    put_held(m, 0);
    put_count(m, 0);
    put_delete_count(m, 0);
    put_zeros(m, HEAD_REST, HEAD_ZEROS);
}

pub fn start(m: &mut [u8], role: u8, limit: u16)
    requires { front_length ≤ length m.old }
    ensures { m.new ≡ started m.old role limit }
{
    put_head(m, role, limit);
    set_all(m, NONTRAILER_MARKS);
    set_all(m, TRAILER_MARKS);
    put_no_rows(m);
}
