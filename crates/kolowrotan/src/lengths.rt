// The bytes that a host lends as the memory of each end.
ghost use Rattle.std.specs.Prelude.{◌≡◌};
ghost use Rattle.state.specs.Layout.{decoder_length, encoder_length};

use state::layout::{DECODER_LENGTH, ENCODER_LENGTH};

pub fn kolowrotan_decoder_length() -> usize
    ensures { result ≡ decoder_length }
{
    DECODER_LENGTH
}

pub fn kolowrotan_encoder_length() -> usize
    ensures { result ≡ encoder_length }
{
    ENCODER_LENGTH
}
