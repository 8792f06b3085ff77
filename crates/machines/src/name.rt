// A machine's name, 1 to 15 characters, none of them zero.
ghost use Rattle.std.specs.Prelude.{◌≤◌, length};

pub const NAME: usize = 16;

// The characters, and zeros behind them: programs keep names in fixed memory, so this is no String.
#[derive(Clone, Copy, PartialEq, Eq)]
pub struct Name {
    pub bytes: [u8; NAME],
}

impl Name {
    // The first characters of a text.
    pub fn of(text: &[u8]) -> Name {
        let n = text.len().min(NAME);
        let mut bytes = [0u8; NAME];
        bytes[..n].copy_from_slice(&text[..n]);
        Name { bytes }
    }

    // The characters before the first zero.
    pub fn text(&self) -> &[u8]
        ensures { length result.now ≤ 16 }
    {
        let n = self.bytes.iter().position(|c| *c == 0).unwrap_or(NAME);
        &self.bytes[..n]
    }
}
