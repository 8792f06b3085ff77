// The delete call: an entry put under deletion, its instruction out: 17, 5, 8, 9, 12. The entry is held until its acknowledgement is read.
ghost use Rattle.std.specs.Prelude.{◌≡◌, true, ℕ};
ghost use Rattle.state.specs.Layout.{count_of, status_at};
ghost use Rattle.state.specs.Forms.{forms_encoder};
ghost use Rattle.table_search.specs.Search.{find_from};
ghost use Rattle.reply.specs.Reply.{answer_of};
ghost use Rattle.encoder.specs.Calls.{delete_call};
ghost use Rattle.encoder.specs.Steps.{found_delete};

use instruction_writing::write::write_delete;
use integers::answer::Refusal;
use integers::number::TableIndex;
use reply::Reply;
use sizes::delete_size;
use state::kept::horizon_at;
use state::reference::{nontrailer_place, trailer_place};
use state::row::{DELETED, put_status, status_at};
use state_test::encoder::forms_encoder;
use table_search::find::find;

// An entry that is not under deletion: 12, or its delete.
fn delete_found(m: &mut [u8], index: TableIndex, place: usize, out: &mut [u8]) -> Reply
    requires m_value { forms_encoder m.old ≡ true }
    requires m_value_2 { (find_from m.old index.value (count_of m.old) 0 ≡ Ok place) × (status_at m.old place ≡ 0) }
    ensures result_value { answer_of result ≡ (found_delete m.old place out.old).answer }
    ensures m_after { m.new ≡ (found_delete m.old place out.old).memory }
    ensures out_after { out.new ≡ (found_delete m.old place out.old).output }
{
    let nontrailer = horizon_at(m, nontrailer_place(place)) as u32;
    let trailer = horizon_at(m, trailer_place(place)) as u32;
    let n = delete_size(index, nontrailer, trailer);
    if out.len() < n {
        return Reply::because(Refusal::NoRoom);
    }
    let none = [0u16; 1];
    let empty = &none[..0];
    write_delete(index, nontrailer, empty, trailer, empty, out, 0);
    put_status(m, place, DELETED);
    Reply::done(n as u32, 0)
}

pub fn delete(m: &mut [u8], index: u64, out: &mut [u8]) -> Reply
    ensures result_value { answer_of result ≡ (delete_call m.old index out.old).answer }
    ensures m_after { m.new ≡ (delete_call m.old index out.old).memory }
    ensures out_after { out.new ≡ (delete_call m.old index out.old).output }
{
    if !forms_encoder(m) {
        return Reply::because(Refusal::NoState);
    }
    if index < (TableIndex::FIRST as u64) {
        return Reply::because(Refusal::NotAllowed);
    }
    if (TableIndex::LAST as u64) < index {
        return Reply::because(Refusal::NotAllowed);
    }
    let i = TableIndex::new(index as u32);
    let f = find(m, i);
    let Ok(place) = f else {
        return Reply::because(Refusal::Vacant);
    };
    if status_at(m, place) != 0 {
        return Reply::because(Refusal::UnderDeletion);
    }
    delete_found(m, i, place, out)
}
