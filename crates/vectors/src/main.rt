// Reads lines of vectors from its input and writes each with its answer. A line is a letter for what is to be done, a prefix width or
// a space, a space, and bytes in hexadecimal; a line that begins with '#' is a comment. `stdin` holds the vectors, and `stdout` what
// must be written, as the papers have it.
#![tactic(auto)]

mod answers;

use answers::answer;
use show::words;
use tokens::hex::unhex;

fn main() {
    let mut input = io::large_buffer();
    let n = io::read_full(0, &mut input);
    lines(&input[..n]);
}

fn lines(input: &[u8]) {
    for text in input.split_inclusive(|c| *c == b'\n') {
        line(text.strip_suffix(b"\n").unwrap_or(text));
    }
}

fn line(text: &[u8]) {
    words(text);
    if 3 <= text.len() {
        let kind = text[0];
        if kind != b'#' {
            let width = text[1];
            let mut bytes = [0u8; 1024];
            let n = unhex(text, 3, &mut bytes);
            words(b" -> ");
            answer(kind, width, &bytes[..n]);
        }
    }
    words(b"\n");
}
