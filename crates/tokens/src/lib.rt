// The words of a line of text, and the numbers and bytes that they say.
#![tactic(auto)]

ghost use Rattle.std.specs.Prelude.{◌≡◌, ℕ, ◌<◌, ◌≤◌, length, not, [], IfSome, MatchOption, position};
ghost use Rattle.std.specs.List.{position_or_len};
ghost use Rattle.std.specs.Iterator.{at_most};
ghost use Rattle.memory.specs.Compare.{same as alike};
ghost use Rattle.tokens.specs.Numbers.{digit_of, number_of};
ghost use Rattle.tokens.specs.Words.{separates, from_word, first_word, behind_word};

pub mod hex;

use crate::hex::digit;
// How many bytes one word can say.
pub const MOST_BYTES: usize = 20_000;

// The base of the numbers.
const BASE: u64 = 10;

// The words of a line that are still to be read: those of `rest`.
#[derive(Clone, Copy, Debug)]
pub struct Words<'a> {
    rest: &'a [u8],
}

// Does the character separate words? Spaces and tabs do, and carriage returns, so that either kind of line end can be read.
fn separates(c: u8) -> bool
    ensures { result ≡ separates c }
{
    matches!(c, b' ' | b'\t' | b'\r')
}

// The place of the first character that separates no words.
fn word_start(text: &[u8]) -> Option<usize>
    ensures value { result ≡ position (λ c. not (separates c)) text.now }
    ensures bound { IfSome result (λ from. from < length text.now) }
{
    text.iter().position(|c| !separates(*c))
}

// The place of the first character that separates words.
fn word_break(text: &[u8]) -> Option<usize>
    ensures value { result ≡ position separates text.now }
    ensures bound { IfSome result (λ to. to < length text.now) }
{
    text.iter().position(|c| separates(*c))
}

// That place, or the end of the text.
fn word_end(text: &[u8]) -> usize
    ensures value { result ≡ position_or_len separates text.now }
    ensures bound { result ≤ length text.now }
{
    word_break(text).unwrap_or(text.len())
}

impl<'a> Words<'a> {
    pub fn of(text: &'a [u8]) -> Words<'a>
        ensures { result.rest.now ≡ text.now }
    {
        Words { rest: text }
    }
}

impl<'a> Iterator for Words<'a> {
    type Item = &'a [u8];

    // The first word of what is left, and what stands behind it is left; nothing, where no word is left.
    ghost next_gives = { λ s r t. MatchOption r (from_word s.rest.now ≡ []) (λ word. (word.now ≡ first_word s.rest.now) × (t.rest.now ≡ behind_word s.rest.now)) };

    ghost remaining = { λ s. at_most (length s.rest.now) };

    fn next(&mut self) -> Option<&'a [u8]> {
        let from = word_start(self.rest)?;
        let text = &self.rest[from..];
        let (word, rest) = text.split_at(word_end(text));
        self.rest = rest;
        Some(word)
    }
}

// Is the word this one? A function over `==`, as callers' contracts speak of `memory`'s own comparison.
pub fn is(word: &[u8], other: &[u8]) -> bool
    ensures { result ≡ alike word.now other.now }
{
    word == other
}

// The value of a decimal digit.
#[tactic(auto, unfolding(crate::specs::Numbers::digit_of))]
fn decimal_digit(c: u8) -> Option<u8>
    ensures { MatchOption result (digit_of c ≡ 10) (λ d. (d ≡ digit_of c) × (d < 10)) }
{
    match c {
        b'0'..=b'9' => Some(c - b'0'),
        _ => None,
    }
}

// The value of a hexadecimal digit in either case.
fn hex_digit(c: u8) -> Option<u8>
    ensures { IfSome result (λ d. d < 16) }
{
    digit(c.to_ascii_lowercase())
}

// The number that a word says in decimal digits, if it is at most 2^64 - 1.
pub fn number(word: &[u8]) -> Option<u64>
    ensures { result ≡ number_of word.now }
{
    if word.is_empty() {
        return None;
    }
    let mut n: u64 = 0;
    for c in word {
        let d = decimal_digit(*c)?;
        n = n.checked_mul(BASE)?.checked_add(u64::from(d))?;
    }
    Some(n)
}

// Puts the bytes that a word says into `out`, from the place `at` on, and answers the place after them.
pub fn bytes(word: &[u8], out: &mut [u8], at: usize) -> Option<usize>
    ensures { at ≤ length out.old → IfSome result (λ n. n ≤ length out.new) }
{
    if is(word, b"-") {
        return Some(at);
    }
    let n = word.len() / 2;
    if n == 0 || word.len() % 2 != 0 || MOST_BYTES < n {
        return None;
    }
    if out.len() < at || out.len() - at < n {
        return None;
    }
    for (byte, digits) in out[at..].iter_mut().zip(word.chunks_exact(2)) {
        *byte = hex::BASE * hex_digit(digits[0])? + hex_digit(digits[1])?;
    }
    Some(at + n)
}
