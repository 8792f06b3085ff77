// One acknowledgement read: the entry is freed.
ghost use Rattle.std.specs.Prelude.{◌≡◌, true, ℕ, ◌≤◌, length};
ghost use Rattle.state.specs.Layout.{encoder_length, count_of};
ghost use Rattle.state.specs.Forms.{forms_encoder};
ghost use Rattle.table.specs.Changes.{Removing, removed};
ghost use Rattle.horizons.specs.Horizons.{horizons_closed};
ghost use Rattle.reply.specs.Reply.{answer_of};
ghost use Rattle.encoder.specs.Calls.{acknowledge_call};
ghost use Rattle.encoder.specs.Steps.{freed};

use horizons::references::close_horizons;
use instructions::read::{InstructionPlace, read_for_encoder};
use integers::answer::Refusal;
use integers::number::TableIndex;
use reply::Reply;
use state::head::count_of;
use state::row::status_at;
use state_test::encoder::forms_encoder;
use table::remove::remove;
use table_search::find::find;

// Takes the entry in row `place` out, with its horizons.
fn take_out(m: &mut [u8], place: usize)
    requires { Removing m.old place × (encoder_length ≤ length m.old) }
    ensures { m.new ≡ horizons_closed (removed m.old place) place (count_of m.old) }
{
    let count = count_of(m) as usize;
    remove(m, place);
    close_horizons(m, place, count);
}

// Frees the entry with this index, if it is under deletion.
fn free(m: &mut [u8], index: TableIndex, taken: u32) -> Reply
    requires { (62 ≤ index.value) × (forms_encoder m.old ≡ true) }
    ensures result_value { answer_of result ≡ (freed m.old index.value taken).answer }
    ensures m_after { m.new ≡ (freed m.old index.value taken).memory }
{
    let f = find(m, index);
    let Ok(place) = f else {
        return Reply::because(Refusal::NotUnderDeletion);
    };
    if status_at(m, place) == 0 {
        return Reply::because(Refusal::NotUnderDeletion);
    }
    take_out(m, place);
    Reply::done(taken, 0)
}

pub fn acknowledge(m: &mut [u8], s: &[u8]) -> Reply
    ensures result_value { answer_of result ≡ (acknowledge_call m.old s.now).answer }
    ensures m_after { m.new ≡ (acknowledge_call m.old s.now).memory }
{
    if !forms_encoder(m) {
        return Reply::because(Refusal::NoState);
    }
    let r = read_for_encoder(s);
    let Ok((instruction, taken)) = r else {
        return Reply::because(r.unwrap_err());
    };
    match instruction {
        InstructionPlace::Insert(_, _, _) => Reply::because(Refusal::NotAllowed),
        InstructionPlace::Delete(_, _, _) => Reply::because(Refusal::NotAllowed),
        InstructionPlace::Acknowledge(index) => free(m, index, taken as u32),
    }
}
