// What lines are read from.
use std::fs::File;
use std::io::{Error, ErrorKind, Read, Result, Stdin};

#[derive(Drop)]
pub enum Source {
    Input(Stdin),
    File(File),
    // The standard input once it was run: it is closed then, and no read of it succeeds.
    Closed,
}

// One read, which fails where a signal interrupts it.
impl Read for Source {
    fn read(&mut self, buf: &mut [u8]) -> Result<usize> {
        match self {
            Source::Input(stdin) => stdin.read(buf),
            Source::File(file) => file.read(buf),
            Source::Closed => Err(Error::from(ErrorKind::NotConnected)),
        }
    }
}
