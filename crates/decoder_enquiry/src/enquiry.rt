// The hold enquiry: what still holds an entry under deletion.
ghost use Rattle.std.specs.Prelude.{◌≡◌};
ghost use Rattle.reply.specs.Reply.{answer_of};
ghost use Rattle.decoder.specs.Calls.{hold_call};

use holds::hold::{hold_count, hold_lowest, told};
use integers::answer::Refusal;
use integers::number::TableIndex;
use reply::Reply;
use state::row::status_at;
use state_test::decoder::forms_decoder;
use table_search::find::find;

pub fn enquire(m: &[u8], index: u64) -> Reply
    ensures { answer_of result ≡ (hold_call m.now index).answer }
{
    if !forms_decoder(m) {
        return Reply::because(Refusal::NoState);
    }
    if index < (TableIndex::FIRST as u64) {
        return Reply::because(Refusal::NotAllowed);
    }
    if (TableIndex::LAST as u64) < index {
        return Reply::because(Refusal::NotAllowed);
    }
    let f = find(m, TableIndex::new(index as u32));
    let Ok(place) = f else {
        return Reply::because(Refusal::Vacant);
    };
    let status = status_at(m, place) as usize;
    if status == 0 {
        return Reply::because(Refusal::NotUnderDeletion);
    }
    let count = hold_count(m, status - 1) as u32;
    let lowest = told(hold_lowest(m, status - 1));
    Reply::done(count, lowest)
}
