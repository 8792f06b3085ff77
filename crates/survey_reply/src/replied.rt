// What a survey of a block says, as the call's reply: 1 with the index that the block waits for.
ghost use Rattle.std.specs.Prelude.{◌≡◌, ℕ};
ghost use Rattle.reply.specs.Reply.{answer_of};
ghost use Rattle.integers.specs.Answers.{number_of};
ghost use Rattle.survey_reply.specs.Told.{told, FitsTold};

use decoder_survey::measure::Survey;
use integers::answer::{Refusal, WAITS};
use reply::Reply;

// What has a number: a refusal, and any number itself.
pub trait Numbered {
    ghost told_number: { Self → ℕ };

    fn number(self) -> u8
        ensures { result ≡ told_number self };
}

impl Numbered for Refusal {
    ghost told_number = { number_of };

    fn number(self) -> u8 {
        Refusal::number(self)
    }
}

impl Numbered for u8 {
    ghost told_number = { λ n. n };

    fn number(self) -> u8 {
        self
    }
}

// The reply to a block by its survey: its refusal, the vacant index that it waits for, or done with the bytes of its fields.
pub fn replied<W: Numbered>(survey: Result<Survey, W>) -> Reply
    requires { FitsTold W.told_number survey }
    ensures { answer_of result ≡ told W.told_number survey }
{
    match survey {
        Err(why) => Reply::refused(why.number()),
        Ok(Survey::Waits(index)) => Reply {
            number: WAITS,
            first: index.value,
            second: 0,
        },
        Ok(Survey::Bytes(n)) => Reply::done(n as u32, 0),
    }
}
