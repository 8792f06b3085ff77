// The collect call: 17; with none ready it is done, writes 0 bytes and changes nothing; 12 last.
ghost use Rattle.std.specs.Prelude.{◌≡◌, true, suc, ◌<◌, Some};
ghost use Rattle.state.specs.Layout.{delete_count, delete_index_at, status_at};
ghost use Rattle.state.specs.Forms.{forms_decoder};
ghost use Rattle.table_laws.specs.DecoderChanges.{found};
ghost use Rattle.reply.specs.Reply.{answer_of};
ghost use Rattle.decoder.specs.Calls.{collect_call};
ghost use Rattle.decoder_collect.specs.Ready.{ready_at, next_from};

use deletes::kept::drop_delete;
use holds::hold::hold_lowest;
use instruction_writing::write::write_acknowledgement;
use integers::answer::Refusal;
use integers::number::TableIndex;
use reply::Reply;
use sizes::acknowledge_size;
use state::head::delete_count;
use state::kept::delete_index_at;
use state_test::decoder::forms_decoder;
use table::remove::remove;
use table_search::find::find;

// Is every part that delete `k` names finished?
fn is_ready(m: &[u8], k: usize) -> bool
    requires { (k < delete_count m.now) × (forms_decoder m.now ≡ true) }
    ensures { result ≡ ready_at m.now k }
{
    hold_lowest(m, k).is_none()
}

// The first delete that is ready, by its place among the deletes. They stand in order of arrival.
fn first_ready(m: &[u8]) -> Option<usize>
    requires { forms_decoder m.now ≡ true }
    ensures { result ≡ next_from m.now (delete_count m.now) 0 }
{
    let count = delete_count(m) as usize;
    for k in 0..count {
        if is_ready(m, k) {
            return Some(k);
        }
    }
    None
}

// The row of the entry that delete `k` deletes. Every delete has one, so it is found.
fn row_of(m: &[u8], k: usize) -> usize
    requires { (k < delete_count m.now) × (forms_decoder m.now ≡ true) }
    ensures { found m.now (delete_index_at m.now k) result × (status_at m.now result ≡ suc k) }
{
    match find(m, TableIndex::new(delete_index_at(m, k))) {
        Ok(place) => place,
        Err(place) => place,
    }
}

// Frees the entry that delete `k` deletes: 12, or its acknowledgement.
fn free(m: &mut [u8], k: usize, out: &mut [u8]) -> Reply
    requires m_value { forms_decoder m.old ≡ true }
    requires m_value_2 { next_from m.old (delete_count m.old) 0 ≡ Some k }
    ensures result_value { answer_of result ≡ (collect_call m.old out.old).answer }
    ensures m_after { m.new ≡ (collect_call m.old out.old).memory }
    ensures out_after { out.new ≡ (collect_call m.old out.old).output }
{
    let index = TableIndex::new(delete_index_at(m, k));
    let n = acknowledge_size(index);
    if out.len() < n {
        return Reply::because(Refusal::NoRoom);
    }
    write_acknowledgement(index, out, 0);
    let place = row_of(m, k);
    remove(m, place);
    drop_delete(m, k);
    Reply::done(n as u32, 0)
}

pub fn collect(m: &mut [u8], out: &mut [u8]) -> Reply
    ensures result_value { answer_of result ≡ (collect_call m.old out.old).answer }
    ensures m_after { m.new ≡ (collect_call m.old out.old).memory }
    ensures out_after { out.new ≡ (collect_call m.old out.old).output }
{
    if !forms_decoder(m) {
        return Reply::because(Refusal::NoState);
    }
    match first_ready(m) {
        Some(k) => free(m, k, out),
        None => Reply::done(0, 0),
    }
}
