// The non-trailer part of a stream is over: it is finished.
ghost use Rattle.std.specs.Prelude.{◌≡◌};
ghost use Rattle.reply.specs.Reply.{answer_of};
ghost use Rattle.decoder.specs.Calls.{over_call};

use crate::stream::stream_named;
use marks::mark::clear;
use reply::Reply;
use state::layout::NONTRAILER_MARKS;

pub fn over(m: &mut [u8], stream: u64) -> Reply
    ensures result_value { answer_of result ≡ (over_call m.old stream).answer }
    ensures m_after { m.new ≡ (over_call m.old stream).memory }
{
    match stream_named(m, stream) {
        Ok(named) => {
            clear(m, NONTRAILER_MARKS, named);
            Reply::done(0, 0)
        }
        Err(why) => Reply::because(why),
    }
}
