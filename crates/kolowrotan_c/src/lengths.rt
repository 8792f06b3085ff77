// The bytes that a host lends as the memory of each end.
ghost use Rattle.std.specs.Prelude.{◌≡◌};
ghost use Rattle.state.specs.Layout.{decoder_length, encoder_length};

use kolowrotan::lengths;

#[unsafe(no_mangle)]
pub extern "C" fn kolowrotan_decoder_length() -> usize
    ensures { result ≡ decoder_length }
{
    lengths::kolowrotan_decoder_length()
}

#[unsafe(no_mangle)]
pub extern "C" fn kolowrotan_encoder_length() -> usize
    ensures { result ≡ encoder_length }
{
    lengths::kolowrotan_encoder_length()
}
