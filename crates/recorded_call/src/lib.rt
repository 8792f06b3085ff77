// A call of a recording, made: through the same functions that a host reaches, on the memory of its end.
#![tactic(auto)]

ghost use Rattle.std.specs.Prelude.{◌≡◌, ◌++◌, take, drop};
ghost use Rattle.reply.specs.Reply.{answer_of};
ghost use Rattle.recorded_call.specs.Performed.{performed};

use recorded_parts::{behind, first, lent, own};
use recording::{Call, Kind};
use reply::Reply;

// The call on the memory of its end; the other end's is left as it is. Each kind is an arm: closures in a table would all borrow the same
// memories and the output.
pub fn perform(
    call: Call,
    bytes: &[u8],
    decoder: &mut [u8],
    encoder: &mut [u8],
    output: &mut [u8],
) -> Reply
    ensures result_value { answer_of result ≡ (performed call bytes.now decoder.old encoder.old output.old).answer }
    ensures decoder_after { decoder.new ≡ (performed call bytes.now decoder.old encoder.old output.old).decoder }
    ensures encoder_after { encoder.new ≡ (performed call bytes.now decoder.old encoder.old output.old).encoder }
    ensures output_after { output.new ≡ (performed call bytes.now decoder.old encoder.old output.old).output }
{
    let kind = call.kind;
    let s = own(call, bytes);
    match kind {
        Kind::DecoderStart => decoder::start::start(decoder, call.first),
        Kind::DecoderRead => decoder_read::read::read(decoder, s),
        Kind::DecoderBlock => decoder_block::block::block(
            decoder,
            call.first,
            call.second,
            s,
            output,
        ),
        Kind::DecoderOver => decoder_ended::over::over(decoder, call.first),
        Kind::DecoderEnded => decoder_ended::ended::ended(decoder, call.first),
        Kind::DecoderCollect => decoder_collect::collect::collect(decoder, output),
        Kind::DecoderHold => decoder_enquiry::enquiry::enquire(decoder, call.first),
        Kind::EncoderStart => encoder::start::start(encoder, call.first),
        Kind::EncoderInsert => {
            encoder_insert::insert::insert(
                encoder,
                first(s, call.split),
                behind(s, call.split),
                output,
            )
        }
        Kind::EncoderDelete => encoder_delete::delete::delete(encoder, call.first, output),
        Kind::EncoderBlock => encoder_block::block::block(
            encoder,
            call.first,
            call.second,
            s,
            output,
        ),
        Kind::EncoderAcknowledge => encoder_acknowledge::acknowledge::acknowledge(encoder, s),
    }
}

// The call with as much of the output lent to it as its room says.
pub fn perform_within(
    call: Call,
    bytes: &[u8],
    decoder: &mut [u8],
    encoder: &mut [u8],
    output: &mut [u8],
) -> Reply
    ensures result_value { answer_of result ≡ (performed call bytes.now decoder.old encoder.old (take call.room output.old)).answer }
    ensures decoder_after { decoder.new ≡ (performed call bytes.now decoder.old encoder.old (take call.room output.old)).decoder }
    ensures encoder_after { encoder.new ≡ (performed call bytes.now decoder.old encoder.old (take call.room output.old)).encoder }
    ensures output_after { output.new ≡ (performed call bytes.now decoder.old encoder.old (take call.room output.old)).output ++ drop call.room output.old }
{
    let n = lent(call, output.len());
    perform(call, bytes, decoder, encoder, &mut output[..n])
}
