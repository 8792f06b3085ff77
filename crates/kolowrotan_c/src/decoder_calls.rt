// The decoder's calls.
ghost use Rattle.std.specs.Prelude.{◌≡◌};
ghost use Rattle.reply.specs.Reply.{joined};
ghost use Rattle.decoder.specs.Calls.{start_call, read_call, block_call, over_call, ended_call, hold_call, collect_call};

use kolowrotan::decoder_calls;

#[unsafe(no_mangle)]
pub extern "C" fn kolowrotan_decoder_start(memory: &mut [u8], limit: u64) -> u64
    ensures value { result ≡ joined (start_call memory.old limit).answer }
    ensures memory_after { memory.new ≡ (start_call memory.old limit).memory }
{
    decoder_calls::kolowrotan_decoder_start(memory, limit)
}

#[unsafe(no_mangle)]
pub extern "C" fn kolowrotan_decoder_read(memory: &mut [u8], bytes: &[u8]) -> u64
    ensures value { result ≡ joined (read_call memory.old bytes.now).answer }
    ensures memory_after { memory.new ≡ (read_call memory.old bytes.now).memory }
{
    decoder_calls::kolowrotan_decoder_read(memory, bytes)
}

#[unsafe(no_mangle)]
pub extern "C" fn kolowrotan_decoder_block(
    memory: &mut [u8],
    stream: u64,
    part: u64,
    bytes: &[u8],
    output: &mut [u8],
) -> u64
    ensures value { result ≡ joined (block_call memory.old stream part bytes.now output.old).answer }
    ensures memory_after { memory.new ≡ (block_call memory.old stream part bytes.now output.old).memory }
    ensures output_after { output.new ≡ (block_call memory.old stream part bytes.now output.old).output }
{
    decoder_calls::kolowrotan_decoder_block(memory, stream, part, bytes, output)
}

#[unsafe(no_mangle)]
pub extern "C" fn kolowrotan_decoder_over(memory: &mut [u8], stream: u64) -> u64
    ensures value { result ≡ joined (over_call memory.old stream).answer }
    ensures memory_after { memory.new ≡ (over_call memory.old stream).memory }
{
    decoder_calls::kolowrotan_decoder_over(memory, stream)
}

#[unsafe(no_mangle)]
pub extern "C" fn kolowrotan_decoder_ended(memory: &mut [u8], stream: u64) -> u64
    ensures value { result ≡ joined (ended_call memory.old stream).answer }
    ensures memory_after { memory.new ≡ (ended_call memory.old stream).memory }
{
    decoder_calls::kolowrotan_decoder_ended(memory, stream)
}

#[unsafe(no_mangle)]
pub extern "C" fn kolowrotan_decoder_hold(memory: &[u8], index: u64) -> u64
    ensures { result ≡ joined (hold_call memory.now index).answer }
{
    decoder_calls::kolowrotan_decoder_hold(memory, index)
}

#[unsafe(no_mangle)]
pub extern "C" fn kolowrotan_decoder_collect(memory: &mut [u8], output: &mut [u8]) -> u64
    ensures value { result ≡ joined (collect_call memory.old output.old).answer }
    ensures memory_after { memory.new ≡ (collect_call memory.old output.old).memory }
    ensures output_after { output.new ≡ (collect_call memory.old output.old).output }
{
    decoder_calls::kolowrotan_decoder_collect(memory, output)
}
