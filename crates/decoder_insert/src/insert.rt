// An insert that was read, done on the table: 8, 6, 7. Its name is a string of the input, that of a static entry, or that of an entry of the table.
ghost use Rattle.std.specs.Prelude.{◌≡◌, true, ◌+◌, ◌≤◌, ◌<◌};
ghost use Rattle.wire.specs.Text.{InString, string_length, string_bytes};
ghost use Rattle.instructions.specs.Instruction.{FineIndex};
ghost use Rattle.state.specs.Layout.{count_of};
ghost use Rattle.state.specs.Rows.{name_at};
ghost use Rattle.state.specs.Forms.{forms_decoder};
ghost use Rattle.statics.specs.Table.{static_name};
ghost use Rattle.table_search.specs.Search.{find_from};
ghost use Rattle.reply.specs.Reply.{answer_of};
ghost use Rattle.decoder_insert.specs.Inserts.{named_insert, indexed_insert, judged, judged_number};

use entry_places::place::{EntryPlace, locate};
use integers::answer::Refusal;
use integers::number::TableIndex;
use reply::Reply;
use state::layout;
use state::row::name_length_at;
use statics::table::{static_name, static_text};
use table_insert::insert::{insert_like, insert_named, insert_strings};
use table_rows::fits;
use table_search::find::find;
use wire::text::StringPlace;

// Where a new entry of this size goes, or why it is refused: 6, 7.
fn judge(m: &[u8], index: TableIndex, size: usize) -> Result<usize, Refusal>
    requires { (62 ≤ index.value) × (size < 65536) × (forms_decoder m.now ≡ true) }
    ensures { result ≡ judged m.now index.value size }
{
    let f = find(m, index);
    let Err(place) = f else {
        return Err(Refusal::Held);
    };
    if !fits(m, size) {
        return Err(Refusal::OverLimit);
    }
    Ok(place)
}

// An insert whose name is a string of `s`. The three inserts differ in how long the name is and in how it is put in: one function of them would switch on the
// kind of name twice, or take two closures and say of each what these contracts say.
pub fn insert_by_string(
    m: &mut [u8],
    s: &[u8],
    index: TableIndex,
    name: StringPlace,
    value: StringPlace,
    taken: u32,
) -> Reply
    requires fine_index { FineIndex index.value × (forms_decoder m.old ≡ true) }
    requires in_string { InString s.now name × (string_length s.now name ≤ 255) × InString s.now value × (string_length s.now value ≤ 2047) }
    ensures result_value { answer_of result ≡ (named_insert m.old index.value
        (string_bytes s.now name) (string_bytes s.now value) taken).answer }
    ensures m_after { m.new ≡ (named_insert m.old index.value
        (string_bytes s.now name) (string_bytes s.now value) taken).memory }
    ensures number { (answer_of result).number ≡ judged_number (judged m.old index.value (string_length s.now name + string_length s.now value + 32)) }
{
    let j = judge(
        m,
        index,
        name.length(s) + value.length(s) + layout::ENTRY_SIZE,
    );
    let Ok(place) = j else {
        return Reply::because(j.unwrap_err());
    };
    insert_strings(m, place, index, s, name, value);
    Reply::done(taken, 0)
}

// An insert whose name is that of a static entry.
fn insert_by_static(
    m: &mut [u8],
    s: &[u8],
    index: TableIndex,
    named: TableIndex,
    value: StringPlace,
    taken: u32,
) -> Reply
    requires fine_index { FineIndex index.value × (forms_decoder m.old ≡ true) × (1 ≤ named.value) × (named.value ≤ 61) }
    requires in_string { InString s.now value × (string_length s.now value ≤ 2047) }
    ensures result_value { answer_of result ≡ (named_insert m.old index.value (static_name named.value) (string_bytes s.now value) taken).answer }
    ensures m_after { m.new ≡ (named_insert m.old index.value (static_name named.value) (string_bytes s.now value) taken).memory }
{
    let text = static_text();
    let name = static_name(&text, named);
    let j = judge(m, index, name.len() + value.length(s) + layout::ENTRY_SIZE);
    let Ok(place) = j else {
        return Reply::because(j.unwrap_err());
    };
    insert_named(m, place, index, name, s, value);
    Reply::done(taken, 0)
}

// An insert whose name is that of the entry in row `row`.
fn insert_by_row(
    m: &mut [u8],
    s: &[u8],
    index: TableIndex,
    named: TableIndex,
    row: usize,
    value: StringPlace,
    taken: u32,
) -> Reply
    requires fine_index { FineIndex index.value × (forms_decoder m.old ≡ true) }
    requires m_value { find_from m.old named.value (count_of m.old) 0 ≡ Ok row }
    requires in_string { InString s.now value × (string_length s.now value ≤ 2047) }
    ensures result_value { answer_of result ≡ (named_insert m.old index.value
        (name_at m.old row) (string_bytes s.now value) taken).answer }
    ensures m_after { m.new ≡ (named_insert m.old index.value
        (name_at m.old row) (string_bytes s.now value) taken).memory }
{
    let name = name_length_at(m, row) as usize;
    let j = judge(m, index, name + value.length(s) + layout::ENTRY_SIZE);
    let Ok(place) = j else {
        return Reply::because(j.unwrap_err());
    };
    insert_like(m, place, index, row, s, value);
    Reply::done(taken, 0)
}

// An insert whose name is given by index: 8 where that is vacant.
pub fn insert_by_index(
    m: &mut [u8],
    s: &[u8],
    index: TableIndex,
    named: TableIndex,
    value: StringPlace,
    taken: u32,
) -> Reply
    requires fine_index { FineIndex index.value × (forms_decoder m.old ≡ true) × (1 ≤ named.value) }
    requires in_string { InString s.now value × (string_length s.now value ≤ 2047) }
    ensures result_value { answer_of result ≡ (indexed_insert m.old index.value named.value (string_bytes s.now value) taken).answer }
    ensures m_after { m.new ≡ (indexed_insert m.old index.value named.value (string_bytes s.now value) taken).memory }
{
    let Some(place) = locate(m, named) else {
        return Reply::because(Refusal::Vacant);
    };
    match place {
        EntryPlace::Static(i) => insert_by_static(m, s, index, i, value, taken),
        EntryPlace::Dynamic(row) => insert_by_row(m, s, index, named, row, value, taken),
    }
}
