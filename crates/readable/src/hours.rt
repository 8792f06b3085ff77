// Hours, which are counted in tenths.
ghost use Rattle.std.specs.Prelude.{◌/◌, ◌%◌, ◌++◌, Some};
ghost use Rattle.std.specs.Fmt.{decimal};
ghost use lib.Chars.{codes};

use std::fmt;

// How many tenths an hour has.
const TENTHS: u32 = 10;

// So many tenths of an hour, in hours with one decimal.
#[derive(Clone, Copy)]
pub struct Hours(pub u32);

impl fmt::Display for Hours {
    ghost output = { λ hours. Some (decimal (hours.0 / 10) ++ (codes "." ++ decimal (hours.0 % 10))) };

    fn fmt<W: fmt::Write>(&self, f: &mut fmt::Formatter<W>) -> fmt::Result {
        write!(f, "{}.{}", self.0 / TENTHS, self.0 % TENTHS)
    }
}
