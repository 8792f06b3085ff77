// The encoder's calls.
ghost use Rattle.std.specs.Prelude.{◌≡◌};
ghost use Rattle.reply.specs.Reply.{joined};
ghost use Rattle.encoder.specs.Calls.{start_call, insert_call, delete_call, block_call, acknowledge_call};

use encoder::start::start;
use encoder_acknowledge::acknowledge::acknowledge;
use encoder_block::block::block;
use encoder_delete::delete::delete;
use encoder_insert::insert::insert;

pub fn kolowrotan_encoder_start(memory: &mut [u8], limit: u64) -> u64
    ensures value { result ≡ joined (start_call memory.old limit).answer }
    ensures memory_after { memory.new ≡ (start_call memory.old limit).memory }
{
    let r = start(memory, limit);
    r.join()
}

pub fn kolowrotan_encoder_insert(
    memory: &mut [u8],
    name: &[u8],
    value: &[u8],
    output: &mut [u8],
) -> u64
    ensures value { result ≡ joined (insert_call memory.old name.now value.now output.old).answer }
    ensures memory_after { memory.new ≡ (insert_call memory.old name.now value.now output.old).memory }
    ensures output_after { output.new ≡ (insert_call memory.old name.now value.now output.old).output }
{
    let r = insert(memory, name, value, output);
    r.join()
}

pub fn kolowrotan_encoder_delete(memory: &mut [u8], index: u64, output: &mut [u8]) -> u64
    ensures value { result ≡ joined (delete_call memory.old index output.old).answer }
    ensures memory_after { memory.new ≡ (delete_call memory.old index output.old).memory }
    ensures output_after { output.new ≡ (delete_call memory.old index output.old).output }
{
    let r = delete(memory, index, output);
    r.join()
}

pub fn kolowrotan_encoder_block(
    memory: &mut [u8],
    stream: u64,
    part: u64,
    list: &[u8],
    output: &mut [u8],
) -> u64
    ensures value { result ≡ joined (block_call memory.old stream part list.now output.old).answer }
    ensures memory_after { memory.new ≡ (block_call memory.old stream part list.now output.old).memory }
    ensures output_after { output.new ≡ (block_call memory.old stream part list.now output.old).output }
{
    let r = block(memory, stream, part, list, output);
    r.join()
}

pub fn kolowrotan_encoder_acknowledge(memory: &mut [u8], bytes: &[u8]) -> u64
    ensures value { result ≡ joined (acknowledge_call memory.old bytes.now).answer }
    ensures memory_after { memory.new ≡ (acknowledge_call memory.old bytes.now).memory }
{
    let r = acknowledge(memory, bytes);
    r.join()
}
