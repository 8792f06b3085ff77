// The block call: 17, 11, 13, reading, 1, 12. Nothing is written before all of these have passed.
ghost use Rattle.std.specs.Prelude.{◌≡◌, true, ◌<◌, ◌≤◌, length};
ghost use Rattle.std.proofs.Math.Option.{some};
ghost use Rattle.model.specs.Parts.{part_of};
ghost use Rattle.state.specs.Layout.{front_length};
ghost use Rattle.state.specs.DecoderState.{decoder_of};
ghost use Rattle.reply.specs.Reply.{answer_of};
ghost use Rattle.parts.specs.Turn.{part_turn, part_in};
ghost use Rattle.parts.specs.Close.{closed_of};
ghost use Rattle.decoder.specs.Calls.{block_call};
ghost use Rattle.decoder_survey.specs.Measure.{Stands};

use decoder_fields::write::write_fields;
use decoder_short::block::give_short;
use decoder_survey::measure::{Survey, survey_block};
use integers::answer::Refusal;
use integers::number::StreamNumber;
use parts::close::close_after;
use parts::turn::{Part, turn_of};
use reply::Reply;
use state_test::decoder::forms_decoder;
use survey_reply::replied::replied;

// The part with this number, of the two that there are.
fn kind_of(part: u64) -> Part
    requires { part ≤ 1 }
    ensures { part_of part ≡ some (part_in result) }
{
    if part == 0 {
        return Part::Nontrailer;
    }
    Part::Trailer
}

// Finishes what a block finishes that was given: a trailer both parts. Stream and part become types again here alone: held as types through the passes
// they take registers from them, 166 instructions a field for 161 (machine reports, warm).
fn finish(m: &mut [u8], stream: u64, part: u64)
    requires { (stream < 4096) × (part ≤ 1) × (front_length ≤ length m.old) }
    ensures { m.new ≡ closed_of (part_of part) m.old stream }
{
    close_after(m, StreamNumber::new(stream as u16), kind_of(part));
}

// A block in turn, in two passes: 13 and the refusals of reading, 1, 12, or its fields, and what it finishes is finished.
fn give_surveyed(m: &mut [u8], stream: u64, part: u64, s: &[u8], out: &mut [u8]) -> Reply
    requires { Stands m.old × (part_turn (decoder_of m.old).finished stream (part_of part) ≡ true) }
    ensures result_value { answer_of result ≡ (block_call m.old stream part s.now out.old).answer }
    ensures m_after { m.new ≡ (block_call m.old stream part s.now out.old).memory }
    ensures out_after { out.new ≡ (block_call m.old stream part s.now out.old).output }
{
    let survey = survey_block(m, s);
    let Ok(Survey::Bytes(n)) = survey else {
        return replied(survey);
    };
    if out.len() < n {
        return Reply::because(Refusal::NoRoom);
    }
    write_fields(m, s, out);
    finish(m, stream, part);
    replied(survey)
}

// The same, in one pass where the block is for that. Every refusal of a block is decided by the two.
fn give(m: &mut [u8], stream: u64, part: u64, s: &[u8], out: &mut [u8]) -> Reply
    requires { Stands m.old × (part_turn (decoder_of m.old).finished stream (part_of part) ≡ true) }
    ensures result_value { answer_of result ≡ (block_call m.old stream part s.now out.old).answer }
    ensures m_after { m.new ≡ (block_call m.old stream part s.now out.old).memory }
    ensures out_after { out.new ≡ (block_call m.old stream part s.now out.old).output }
{
    let Some(given) = give_short(m, s, out) else {
        return give_surveyed(m, stream, part, s, out);
    };
    match given {
        Ok(n) => {
            finish(m, stream, part);
            Reply::done(n as u32, 0)
        }
        Err(why) => Reply::because(why),
    }
}

pub fn block(m: &mut [u8], stream: u64, part: u64, s: &[u8], out: &mut [u8]) -> Reply
    ensures result_value { answer_of result ≡ (block_call m.old stream part s.now out.old).answer }
    ensures m_after { m.new ≡ (block_call m.old stream part s.now out.old).memory }
    ensures out_after { out.new ≡ (block_call m.old stream part s.now out.old).output }
{
    if !forms_decoder(m) {
        return Reply::because(Refusal::NoState);
    }
    let turn = turn_of(m, stream, part);
    let Some(_) = turn else {
        return Reply::because(Refusal::OutOfTurn);
    };
    give(m, stream, part, s, out)
}
