// What an encoder keeps for an entry's delete, by the entry's row: a horizon for each kind of part, in a column of its own.
ghost use Rattle.std.specs.Prelude.{◌≡◌, ℕ, ◌≤◌};
ghost use Rattle.state.specs.Layout.{nontrailer_place, trailer_place};

pub const NONTRAILER_HORIZONS: usize = 7_232;

pub const TRAILER_HORIZONS: usize = 7_488;

pub const HORIZON_LENGTH: usize = 2;

// Where the horizon of the non-trailer blocks stands that refer to the entry in row `i`.
pub fn nontrailer_place(i: usize) -> usize
    requires { i ≤ 256 }
    ensures { result ≡ nontrailer_place i }
{
    NONTRAILER_HORIZONS + HORIZON_LENGTH * i
}

// Where that of the trailer blocks stands.
pub fn trailer_place(i: usize) -> usize
    requires { i ≤ 256 }
    ensures { result ≡ trailer_place i }
{
    TRAILER_HORIZONS + HORIZON_LENGTH * i
}
