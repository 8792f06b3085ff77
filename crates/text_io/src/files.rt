// The files that a program is run on.
use crate::source::Source;
use std::env::{Env, FillError};
use std::{fs, str};

// Is there an argument `i`?
pub fn is_argument(rt: &HostRuntime, i: usize) -> bool {
    let mut first = [0u8; 1];
    match rt.arg(i, &mut first) {
        Err(FillError::NotPresent) => false,
        Ok(_) | Err(FillError::TooLong) => true,
    }
}

// Is argument `i` the one that stands for the standard input?
fn is_input(rt: &HostRuntime, i: usize) -> bool {
    let mut word = [0u8; 2];
    match rt.arg(i, &mut word) {
        Ok(n) => n == 1 && word[0] == b'-',
        Err(_) => false,
    }
}

// Does an argument before `i` stand for it?
fn was_input(rt: &HostRuntime, i: usize) -> bool {
    (1..i).any(|earlier| is_input(rt, earlier))
}

// Opens the file that argument `i` names, `-` being the standard input, which is closed where an earlier argument was it; nothing where that cannot be done.
pub fn open_argument(rt: &HostRuntime, i: usize) -> Option<Source> {
    if is_input(rt, i) {
        return if was_input(rt, i) {
            Some(Source::Closed)
        } else {
            Some(Source::Input(rt.stdin()))
        };
    }
    let mut path = io::buffer();
    let n = rt.arg(i, &mut path).ok()?;
    open_read(rt, &path[..n])
}

// Opens the file with this path for reading; nothing where that cannot be done, as where the path is no UTF-8.
pub fn open_read(rt: &HostRuntime, path: &[u8]) -> Option<Source> {
    let text = str::from_utf8(path).ok()?;
    let file = fs::open(rt, text).ok()?;
    Some(Source::File(file))
}
