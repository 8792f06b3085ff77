// The insert call: name and value as plain bytes in, the instruction out: 17, 13, 7, 12.
ghost use Rattle.std.specs.Prelude.{◌≡◌, true, ℕ, ◌+◌, ◌≤◌, length};
ghost use Rattle.memory.specs.Bytes.{overlay};
ghost use Rattle.instructions.specs.Instruction.{Instruction, FineInstruction, instruction_wire};
ghost use Rattle.state.specs.Layout.{count_of, held_of};
ghost use Rattle.state.specs.Forms.{forms_encoder};
ghost use Rattle.table_search.specs.Search.{vacant_row};
ghost use Rattle.table.specs.Changes.{inserted};
ghost use Rattle.horizons.specs.Horizons.{horizons_opened};
ghost use Rattle.encoder_fields.specs.Naming.{chosen_name};
ghost use Rattle.reply.specs.Reply.{answer_of};
ghost use Rattle.encoder.specs.Calls.{insert_call};
ghost use Rattle.encoder_insert.specs.Steps.{Fitting, fitting_insert};

use encoder_fields::name::choose_name;
use horizons::references::open_horizons;
use instruction_writing::write::write_insert;
use integers::answer::Refusal;
use integers::number::TableIndex;
use reply::Reply;
use sizes::{insert_index_size, insert_text_size};
use state::head::count_of;
use state::layout::ENTRY_SIZE;
use state_test::encoder::forms_encoder;
use table_rows::fits;
use table_search::find::lowest_vacant;
use wire::text::{NAME_LIMIT, VALUE_LIMIT, wire_size};

// How many bytes an insert takes, its name by the index `by` or by its bytes.
fn insert_size(index: TableIndex, by: Option<TableIndex>, name: &[u8], value: &[u8]) -> usize
    requires { (length name.now ≤ 255) × (length value.now ≤ 2047) }
    ensures { (result ≡ length (instruction_wire (Instruction.insert index.value (chosen_name name.now by) value.now))) × (result ≤ 4110) }
{
    match by {
        Some(i) => insert_index_size(index, i, wire_size(value)),
        None => insert_text_size(index, wire_size(name), wire_size(value)),
    }
}

// That insert, written at the front of the output.
fn put_insert(index: TableIndex, by: Option<TableIndex>, name: &[u8], value: &[u8], out: &mut [u8])
    requires fine_instruction { FineInstruction (Instruction.insert index.value (chosen_name name.now by) value.now) }
    requires room { length (instruction_wire (Instruction.insert index.value (chosen_name name.now by) value.now)) ≤ length out.old }
    ensures { out.new ≡ overlay out.old 0 (instruction_wire (Instruction.insert index.value (chosen_name name.now by) value.now)) }
{
    match by {
        Some(i) => write_insert(index, i, value, out, 0),
        None => write_insert(index, name, value, out, 0),
    };
}

// Puts the entry in at its place, referred to by no block.
fn enter(m: &mut [u8], place: usize, index: TableIndex, name: &[u8], value: &[u8])
    requires place_value { (place ≡ vacant_row m.old (count_of m.old) 0) × (index.value ≡ 62 + place) × (forms_encoder m.old ≡ true) }
    requires value_bound { (held_of m.old + (length name.now + length value.now + 32) ≤ 4096) × (length name.now ≤ 255) }
    ensures { m.new ≡ horizons_opened (inserted m.old place index.value name.now value.now) place (count_of m.old) }
{
    let count = count_of(m) as usize;
    table_insert::insert::insert(m, place, index, name, value);
    open_horizons(m, place, count);
}

// An entry that keeps the limit: 12, or its insert.
fn insert_fitting(m: &mut [u8], name: &[u8], value: &[u8], out: &mut [u8]) -> Reply
    requires m_value { forms_encoder m.old ≡ true }
    requires fitting { Fitting m.old name.now value.now }
    ensures result_value { answer_of result ≡ (fitting_insert m.old name.now value.now out.old).answer }
    ensures m_after { m.new ≡ (fitting_insert m.old name.now value.now out.old).memory }
    ensures out_after { out.new ≡ (fitting_insert m.old name.now value.now out.old).output }
{
    let by = choose_name(m, name);
    let place = lowest_vacant(m);
    let index = TableIndex::new(TableIndex::FIRST + (place as u32));
    let n = insert_size(index, by, name, value);
    if out.len() < n {
        return Reply::because(Refusal::NoRoom);
    }
    put_insert(index, by, name, value, out);
    enter(m, place, index, name, value);
    Reply::done(n as u32, index.value)
}

pub fn insert(m: &mut [u8], name: &[u8], value: &[u8], out: &mut [u8]) -> Reply
    ensures result_value { answer_of result ≡ (insert_call m.old name.now value.now out.old).answer }
    ensures m_after { m.new ≡ (insert_call m.old name.now value.now out.old).memory }
    ensures out_after { out.new ≡ (insert_call m.old name.now value.now out.old).output }
{
    if !forms_encoder(m) {
        return Reply::because(Refusal::NoState);
    }
    if NAME_LIMIT < name.len() {
        return Reply::because(Refusal::TooLong);
    }
    if VALUE_LIMIT < value.len() {
        return Reply::because(Refusal::TooLong);
    }
    let size = name.len() + value.len() + ENTRY_SIZE;
    if !fits(m, size) {
        return Reply::because(Refusal::OverLimit);
    }
    insert_fitting(m, name, value, out)
}
