// Text for a stream, gathered in a lent buffer and written when that is full.
ghost use Rattle.std.specs.Prelude.{◌≡◌, ◌≤◌, ◌<◌, false, length};
ghost use Rattle.std.specs.Fmt.{digit_glyph};

use crate::stream::Stream;
use std::fmt;
use std::fmt::{Display, Write};
use tokens::hex::BASE;

// The first `used` bytes of the buffer are gathered and not written yet. `lost` says whether a write has failed so far; what is printed then is
// gathered as before.
#[derive(Drop)]
pub struct Printer<'a> {
    buffer: &'a mut [u8],
    used: usize,
    lost: bool,
    to: Stream,
    ghost inside: { used ≤ length buffer.now },
}

impl<'a> Printer<'a> {
    ghost use Rattle.std.specs.Prelude.{◌+◌, ◌*◌, ◌++◌, true, [], ◌∷◌, IfSome, if◌then◌else◌, nat_lt};
    ghost use Rattle.text_io.specs.Print.{held, room, Prints, hex};

    // Nothing is gathered yet.
    pub fn new(to: Stream, buffer: &'a mut [u8]) -> Printer<'a>
        ensures { (room result ≡ length buffer.old) × (held result ≡ []) × (result.lost ≡ false) }
    {
        Printer {
            buffer,
            used: 0,
            lost: false,
            to,
        }
    }

    // Has a write failed so far?
    pub fn is_lost(&self) -> bool
        ensures { result ≡ self.now.lost }
    {
        self.lost
    }

    // Writes what is gathered.
    pub fn flush(&mut self)
        ensures room { room self.new ≡ room self.old }
        ensures held { held self.new ≡ [] }
        ensures lost { self.old.lost ≡ true → self.new.lost ≡ true }
    {
        if !self.to.write(&self.buffer[..self.used]) {
            self.lost = true;
        }
        self.used = 0;
    }

    // Room for a byte, unless the buffer has none.
    fn make_room(&mut self)
        ensures room { room self.new ≡ room self.old }
        ensures held { held self.new ≡ (if nat_lt (length (held self.old)) (room self.old) then held self.old else []) }
        ensures lost { self.old.lost ≡ true → self.new.lost ≡ true }
    {
        if self.used == self.buffer.len() {
            self.flush();
        }
    }

    // One byte that there is room for.
    fn push(&mut self, c: u8)
        requires { self.old.used < room self.old }
        ensures room { room self.new ≡ room self.old }
        ensures held { held self.new ≡ held self.old ++ (c ∷ []) }
        ensures lost { self.new.lost ≡ self.old.lost }
    {
        self.buffer[self.used] = c;
        self.used += 1;
    }

    // Bytes that there is room for.
    fn push_all(&mut self, s: &[u8])
        requires { self.old.used + length s.now ≤ room self.old }
        ensures room { room self.new ≡ room self.old }
        ensures held { held self.new ≡ held self.old ++ s.now }
        ensures lost { self.new.lost ≡ self.old.lost }
    {
        let end = self.used + s.len();
        self.buffer[self.used..end].copy_from_slice(s);
        self.used = end;
    }

    // Digits that there is room for. They are counted in a local: a write to the buffer could be one to the printer's own count, for all the compiler knows.
    fn push_hex(&mut self, s: &[u8])
        requires { self.old.used + 2 * length s.now ≤ room self.old }
        ensures room { room self.new ≡ room self.old }
        ensures held { held self.new ≡ held self.old ++ hex s.now }
        ensures lost { self.new.lost ≡ self.old.lost }
    {
        let mut end = self.used;
        let out = &mut *self.buffer;
        for c in s {
            out[end] = digit(c / BASE);
            out[end + 1] = digit(c % BASE);
            end += 2;
        }
        self.used = end;
    }

    // One byte. A buffer of none gathers none: it is lost.
    pub fn byte(&mut self, c: u8)
        ensures { Prints self.old (c ∷ []) self.new }
    {
        self.make_room();
        if self.used < self.buffer.len() {
            self.push(c);
        } else {
            self.lost = true;
        }
    }

    pub fn bytes(&mut self, s: &[u8])
        ensures { Prints self.old s.now self.new }
    {
        if s.len() <= self.buffer.len() - self.used {
            self.push_all(s);
            return;
        }
        for c in s {
            self.byte(*c);
        }
    }

    // A byte as two hexadecimal digits.
    fn pair(&mut self, c: u8)
        ensures { Prints self.old (hex (c ∷ [])) self.new }
    {
        self.byte(digit(c / BASE));
        self.byte(digit(c % BASE));
    }

    // Bytes as hexadecimal digits.
    pub fn hex(&mut self, s: &[u8])
        ensures { Prints self.old (hex s.now) self.new }
    {
        // No step is counted, so `for` has none to take: as many bytes as there is room for, and then the one at whose digits the buffer ends.
        let mut at = 0;
        while at < s.len() {
            let n = (s.len() - at).min((self.buffer.len() - self.used) / 2);
            self.push_hex(&s[at..at + n]);
            at += n;
            if at < s.len() {
                self.pair(s[at]);
                at += 1;
            }
        }
    }

    // What `write!` and `writeln!` call. Text that says of itself that it cannot be printed counts as lost.
    pub fn write_fmt<D: Display + Drop>(&mut self, text: D)
        ensures { self.new.lost ≡ false → IfSome (D.output text) (λ s. Prints self.old s self.new) }
    {
        match Write::write_fmt(self, text) {
            Ok(()) => {}
            Err(_) => self.lost = true,
        }
    }

    // The end of a line, which is written. Nothing is written behind a line that was lost.
    pub fn end_line(&mut self)
        ensures room { room self.new ≡ room self.old }
        ensures held { held self.new ≡ [] }
        ensures lost { self.old.lost ≡ true → self.new.lost ≡ true }
    {
        if self.lost {
            self.used = 0;
            return;
        }
        self.byte(b'\n');
        self.flush();
    }
}

impl Write for Printer<'_> {
    ghost use Rattle.text_io.specs.Print.{Prints};

    ghost write_str_gives = { Prints };

    fn write_str(&mut self, s: &str) -> fmt::Result {
        self.bytes(s.as_bytes());
        Ok(())
    }
}

// A digit below 16.
fn digit(d: u8) -> u8
    requires { d < 16 }
    ensures { result ≡ digit_glyph false d }
{
    if d < 10 {
        return b'0' + d;
    }
    b'a' + (d - 10)
}
