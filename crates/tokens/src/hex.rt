// Lines of text, and bytes written as hexadecimal digits: what the programs that read vectors share.
ghost use Rattle.std.specs.Prelude.{ℕ, ◌<◌, ◌≤◌, length, IfSome};
ghost use Rattle.tokens.specs.Counts.{Counts};

// The base of the digits.
pub const BASE: u8 = 16;

// The end of the line that begins at the place `at`: its newline, or the end of the text.
pub fn line_end(text: &[u8], at: usize) -> usize
    requires { at ≤ length text.now }
    ensures { (at ≤ result) × (result ≤ length text.now) }
{
    match text[at..].iter().position(|c| *c == b'\n') {
        Some(n) => at + n,
        None => text.len(),
    }
}

// The value of a hexadecimal digit in lower case.
pub fn digit(c: u8) -> Option<u8>
    ensures { IfSome result (λ d. d < 16) }
{
    match c {
        b'0'..=b'9' => Some(c - b'0'),
        b'a'..=b'f' => Some(c - b'a' + 10),
        _ => None,
    }
}

// Puts the bytes that the digits from the place `from` on say at the start of `out`, as far as it has room, and answers how many they are.
// Characters that are no digits are passed over.
pub fn unhex(text: &[u8], from: usize, out: &mut [u8]) -> usize
    ensures { Counts result out.new }
{
    let mut n = 0;
    let mut high = None;
    for c in &text[from.min(text.len())..] {
        let Some(low) = digit(*c) else {
            continue;
        };
        let Some(h) = high else {
            high = Some(low);
            continue;
        };
        if n == out.len() {
            return n;
        }
        out[n] = h * BASE + low;
        n += 1;
        high = None;
    }
    n
}
