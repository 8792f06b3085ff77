// The start of an encoder's table in lent memory.
ghost use Rattle.std.specs.Prelude.{◌≡◌};
ghost use Rattle.reply.specs.Reply.{answer_of};
ghost use Rattle.encoder.specs.Calls.{start_call};

use integers::answer::Refusal;
use reply::Reply;
use state::layout::{ENCODER, ENCODER_LENGTH, MOST_HELD};

pub fn start(m: &mut [u8], limit: u64) -> Reply
    ensures result_value { answer_of result ≡ (start_call m.old limit).answer }
    ensures m_after { m.new ≡ (start_call m.old limit).memory }
{
    if (MOST_HELD as u64) < limit {
        return Reply::because(Refusal::OverLimit);
    }
    if m.len() < ENCODER_LENGTH {
        return Reply::because(Refusal::NoRoom);
    }
    table::start::start(m, ENCODER, limit as u16);
    Reply::done(0, 0)
}
