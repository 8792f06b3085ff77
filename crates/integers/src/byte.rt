// A byte as a number, with its bound.
ghost use Rattle.std.specs.Prelude.{◌≡◌, ◌<◌};

pub fn wide(x: u8) -> u32
    ensures { (result ≡ x) × (result < 256) }
{
    x as u32
}

pub fn wide_size(x: u8) -> usize
    ensures { (result ≡ x) × (result < 256) }
{
    x as usize
}
