// The stream of which a host says that a part is over, or all of it.
ghost use Rattle.std.specs.Prelude.{◌≡◌};
ghost use Rattle.decoder_ended.specs.Stream.{stream_named};

use integers::answer::Refusal;
use integers::number::StreamNumber;
use state_test::decoder::forms_decoder;

// 17, or 11 above the last stream.
pub fn stream_named(m: &[u8], stream: u64) -> Result<StreamNumber, Refusal>
    ensures { result ≡ stream_named m.now stream }
{
    if !forms_decoder(m) {
        return Err(Refusal::NoState);
    }
    if (StreamNumber::LAST as u64) < stream {
        return Err(Refusal::OutOfTurn);
    }
    Ok(StreamNumber::new(stream as u16))
}
