// What a call answers: the number of document 01's table, and two told numbers.
#![tactic(auto)]

ghost use Rattle.std.specs.Prelude.{◌≡◌};
ghost use Rattle.integers.specs.Answers.{done, refusal, number_of};
ghost use Rattle.reply.specs.Reply.{answer_of, joined, Narrow};

use integers::answer::{DONE, Refusal};

#[derive(Clone, Copy)]
pub struct Reply {
    pub number: u8,
    pub first: u32,
    pub second: u32,
}

impl Reply {
    // Done, with the numbers told.
    pub fn done(first: u32, second: u32) -> Reply
        ensures { answer_of result ≡ done first second }
    {
        Reply {
            number: DONE,
            first,
            second,
        }
    }

    // A refusal by its number, which tells nothing else.
    pub fn refused(number: u8) -> Reply
        ensures { answer_of result ≡ refusal number }
    {
        Reply {
            number,
            first: 0,
            second: 0,
        }
    }

    // The same, by what is refused.
    pub fn because(why: Refusal) -> Reply
        ensures { answer_of result ≡ refusal (number_of why) }
    {
        Reply::refused(why.number())
    }

    // The one number that a C host gets: answer, first from bit 8 on, second from bit 40 on.
    pub fn join(self) -> u64
        requires { Narrow (answer_of self) }
        ensures { result ≡ joined (answer_of self) }
    {
        (self.number as u64) + 256 * (self.first as u64) + 1_099_511_627_776 * (self.second as u64)
    }
}
