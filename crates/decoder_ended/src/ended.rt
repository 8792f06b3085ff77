// A stream has ended or was reset: both parts are finished.
ghost use Rattle.std.specs.Prelude.{◌≡◌};
ghost use Rattle.reply.specs.Reply.{answer_of};
ghost use Rattle.decoder.specs.Calls.{ended_call};

use crate::stream::stream_named;
use parts::close::close_both;
use reply::Reply;

pub fn ended(m: &mut [u8], stream: u64) -> Reply
    ensures result_value { answer_of result ≡ (ended_call m.old stream).answer }
    ensures m_after { m.new ≡ (ended_call m.old stream).memory }
{
    match stream_named(m, stream) {
        Ok(named) => {
            close_both(m, named);
            Reply::done(0, 0)
        }
        Err(why) => Reply::because(why),
    }
}
