// What text is written to.
ghost use Rattle.std.specs.Io.{WritesAtMost};

use std::io::{Result, Stderr, Stdout, Write};

#[derive(Clone, Copy)]
pub enum Stream {
    Output(Stdout),
    Error(Stderr),
}

impl Stream {
    // One write, which fails where a signal interrupts it.
    fn write_some(self, s: &[u8]) -> Result<usize>
        ensures { WritesAtMost result s.now }
    {
        match self {
            Stream::Output(stdout) => {
                let mut to = stdout;
                to.write(s)
            }
            Stream::Error(stderr) => {
                let mut to = stderr;
                to.write(s)
            }
        }
    }

    // Writes all of these bytes, and answers whether it did; a write that takes nothing or fails is the last one.
    pub fn write(self, s: &[u8]) -> bool {
        let mut done: usize = 0;
        // A step is as long as the write says, so no iterator of fixed steps is plainer.
        while done < s.len() {
            let Ok(n) = self.write_some(&s[done..]) else {
                return false;
            };
            if n == 0 {
                return false;
            }
            done += n;
        }
        true
    }
}
