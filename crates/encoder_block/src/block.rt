// The block call: 17, 11, the list (16, 13), block length 13, 12. Nothing is written before all of these have passed.
ghost use Rattle.std.specs.Prelude.{◌≡◌, true};
ghost use Rattle.std.proofs.Math.Option.{some};
ghost use Rattle.state.specs.EncoderState.{encoder_of};
ghost use Rattle.state.specs.Forms.{forms_encoder};
ghost use Rattle.parts.specs.Turn.{part_turn, part_in, case_number};
ghost use Rattle.reply.specs.Reply.{answer_of};
ghost use Rattle.encoder.specs.Calls.{block_call};
ghost use Rattle.encoder_fields.specs.Measure.{ReadsWell};

use encoder_passes::write::{room_answer, write_list};
use fields::read::check_list;
use integers::answer::Refusal;
use integers::number::StreamNumber;
use parts::close::close_after;
use parts::turn::{Part, turn_of};
use reply::Reply;
use state_test::encoder::forms_encoder;

// A block in turn whose list reads well: 13, 12, or its bytes, its references, and what it closes is closed.
fn give(m: &mut [u8], stream: StreamNumber, part: Part, s: &[u8], out: &mut [u8]) -> Reply
    requires m_value { (forms_encoder m.old ≡ true) × (part_turn (encoder_of m.old).written stream.value (some (part_in part)) ≡ true) }
    requires reads_well { ReadsWell s.now }
    ensures result_value { answer_of result ≡ (block_call m.old stream.value (case_number part) s.now out.old).answer }
    ensures m_after { m.new ≡ (block_call m.old stream.value (case_number part) s.now out.old).memory }
    ensures out_after { out.new ≡ (block_call m.old stream.value (case_number part) s.now out.old).output }
{
    if let Err(why) = room_answer(m, stream, part, s, out) {
        return Reply::because(why);
    }
    let n = write_list(m, stream, part, s, out, true);
    close_after(m, stream, part);
    Reply::done(n as u32, 0)
}

// The decoder's block call has the same arguments and other steps.
pub fn block(m: &mut [u8], stream: u64, part: u64, s: &[u8], out: &mut [u8]) -> Reply
    ensures result_value { answer_of result ≡ (block_call m.old stream part s.now out.old).answer }
    ensures m_after { m.new ≡ (block_call m.old stream part s.now out.old).memory }
    ensures out_after { out.new ≡ (block_call m.old stream part s.now out.old).output }
{
    if !forms_encoder(m) {
        return Reply::because(Refusal::NoState);
    }
    let turn = turn_of(m, stream, part);
    let Some((number, kind)) = turn else {
        return Reply::because(Refusal::OutOfTurn);
    };
    if let Err(why) = check_list(s) {
        return Reply::because(why);
    }
    give(m, number, kind, s, out)
}
