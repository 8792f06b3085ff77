// One management instruction, read from the front of the bytes and done on the table.
ghost use Rattle.std.specs.Prelude.{◌≡◌, true};
ghost use Rattle.stream_lists.specs.StreamList.{InList, list_of};
ghost use Rattle.instructions.specs.Instruction.{FineIndex};
ghost use Rattle.state.specs.Forms.{forms_decoder};
ghost use Rattle.reply.specs.Reply.{answer_of};
ghost use Rattle.decoder.specs.Calls.{read_call};
ghost use Rattle.decoder_read.specs.Steps.{kept_delete};

use decoder_insert::insert::{insert_by_index, insert_by_string};
use deletes::kept::append_delete;
use instructions::read::{InstructionPlace, read_for_decoder};
use integers::answer::Refusal;
use integers::number::TableIndex;
use reply::Reply;
use state::row::status_at;
use state_test::decoder::forms_decoder;
use stream_lists::stream_list::ListPlace;
use table_search::find::find;
use wire::name::NamePlace;

// A delete: 8, 9. It is kept with its lists.
fn delete(
    m: &mut [u8],
    s: &[u8],
    index: TableIndex,
    nontrailer: ListPlace,
    trailer: ListPlace,
    taken: u32,
) -> Reply
    requires fine_index { FineIndex index.value × (forms_decoder m.old ≡ true) }
    requires in_list { InList s.now nontrailer × InList s.now trailer }
    ensures result_value { answer_of result ≡ (kept_delete m.old
        (record { index = index.value; nontrailer = list_of s.now nontrailer; trailer = list_of s.now trailer }) taken).answer }
    ensures m_after { m.new ≡ (kept_delete m.old
        (record { index = index.value; nontrailer = list_of s.now nontrailer; trailer = list_of s.now trailer }) taken).memory }
{
    let f = find(m, index);
    let Ok(place) = f else {
        return Reply::because(Refusal::Vacant);
    };
    if status_at(m, place) != 0 {
        return Reply::because(Refusal::UnderDeletion);
    }
    append_delete(m, place, index, s, nontrailer, trailer);
    Reply::done(taken, 0)
}

pub fn read(m: &mut [u8], s: &[u8]) -> Reply
    ensures result_value { answer_of result ≡ (read_call m.old s.now).answer }
    ensures m_after { m.new ≡ (read_call m.old s.now).memory }
{
    if !forms_decoder(m) {
        return Reply::because(Refusal::NoState);
    }
    let r = read_for_decoder(s);
    let Ok((instruction, taken)) = r else {
        return Reply::because(r.unwrap_err());
    };
    match instruction {
        InstructionPlace::Insert(index, name, value) => match name {
            NamePlace::Index(named) => insert_by_index(m, s, index, named, value, taken as u32),
            NamePlace::Text(text) => insert_by_string(m, s, index, text, value, taken as u32),
        },
        InstructionPlace::Delete(index, nontrailer, trailer) => delete(
            m,
            s,
            index,
            nontrailer,
            trailer,
            taken as u32,
        ),
        InstructionPlace::Acknowledge(_) => Reply::because(Refusal::NotAllowed),
    }
}
