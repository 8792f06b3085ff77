// A field list measured, or written as a block with its references entered, in one pass: a reference changes no choice.
ghost use Rattle.std.specs.Prelude.{◌≡◌, true, ◌+◌, ◌≤◌, ◌<◌, length};
ghost use Rattle.memory.specs.Choice.{pick};
ghost use Rattle.memory.specs.Bytes.{overlay};
ghost use Rattle.blocks.specs.Representation.{representation_wire, block_wire};
ghost use Rattle.model.specs.Encoder.{choose};
ghost use Rattle.state.specs.EncoderState.{encoder_of};
ghost use Rattle.state.specs.Forms.{forms_encoder};
ghost use Rattle.parts.specs.Turn.{part_in};
ghost use Rattle.encoder_fields.specs.Measure.{as_field, ReadsWell, representations_of, capped, room_answer};
ghost use Rattle.encoder_fields.specs.Refer.{entered, entered_by};

use blocks::read::BLOCK_LIMIT;
use encoder_fields::choice::choose_field;
use encoder_fields::field::ListField;
use encoder_fields::measure::choice_size;
use encoder_fields::write::write_choice;
use encoder_references::refer::enter_choice;
use fields::read::field_at;
use integers::answer::Refusal;
use integers::number::StreamNumber;
use parts::turn::Part;

// The length told of a block that is too long: one more than a block may have.
const OVER: usize = BLOCK_LIMIT + 1;

// The longest list whose block is not too long by this bound: the list's bytes and two for each field, which has three at least, so 9,830 + 2 * 3,276 =
// 16,382. Of 9,831 it gives 16,385.
const SHORT_LIST: usize = 9_830;

// One field: the place after its representation, if that stands at the place `at`. Where `write` says so it is written there, and its reference entered.
fn write_field(
    m: &mut [u8],
    stream: StreamNumber,
    part: Part,
    f: ListField,
    out: &mut [u8],
    at: usize,
    write: bool,
) -> usize
    requires m_value { (forms_encoder m.old ≡ true) × (stream.value < 4096) × (at ≤ 16384) }
    requires f_in_bounds { write ≡ true → at + length (representation_wire (choose (encoder_of m.old).entries (as_field f))) ≤ length out.old }
    ensures value { result ≡ at + length (representation_wire (choose (encoder_of m.old).entries (as_field f.entry))) }
    ensures m_after { m.new ≡ pick write (entered_by m.old stream.value (part_in part) (choose (encoder_of m.old).entries (as_field f.entry))) m.old }
    ensures out_after { out.new ≡ pick write (overlay out.old at (representation_wire (choose (encoder_of m.old).entries (as_field f.entry)))) out.old }
{
    let choice = choose_field(m, f);
    if !write {
        return at + choice_size(choice, f);
    }
    enter_choice(m, stream, part, choice);
    write_choice(choice, f, out, at)
}

// The whole list, which reads well: the length of its block, counted up to one more than a block may have. Where `write` says so the block stands at the
// front of the output then, and its references are entered. One function does both, so that the choice of a field has one caller, into which the compiler
// moves it, and the proof that both passes choose alike is one.
pub fn write_list(
    m: &mut [u8],
    stream: StreamNumber,
    part: Part,
    s: &[u8],
    out: &mut [u8],
    write: bool,
) -> usize
    requires m_value { (forms_encoder m.old ≡ true) × (stream.value < 4096) }
    requires reads_well { ReadsWell s.now }
    requires s_len_bound { write ≡ true → (length (block_wire (representations_of m.old s.now)) ≤ 16384) × (length (block_wire (representations_of m.old s.now)) ≤ length out.old) }
    ensures value { result ≡ capped (length (block_wire (representations_of m.old s.now))) }
    ensures m_after { m.new ≡ pick write (entered m.old stream.value (part_in part) (representations_of m.old s.now)) m.old }
    ensures out_after { out.new ≡ pick write (overlay out.old 0 (block_wire (representations_of m.old s.now))) out.old }
{
    // No step is counted, so `for` has none to take: where a field ends says the field. An iterator of the fields would have this `at` and these two lines
    // in its `next`, and `ReadsWell` of what is left to be proved there.
    let mut to: usize = 0;
    let mut at: usize = 0;
    while at < s.len() {
        let place = field_at(s, at);
        to = write_field(m, stream, part, ListField::new(s, place), out, to, write);
        if BLOCK_LIMIT < to {
            return OVER;
        }
        let value = place.value;
        at = value.start + value.length;
    }
    to
}

// Whether the list's block may be written, or why not: 13, 12. A short list is not measured where the output holds the longest
// block that so many bytes can have: that is what a host lends by KOLOWROTAN_BLOCK_ROOM_OF.
pub fn room_answer(
    m: &mut [u8],
    stream: StreamNumber,
    part: Part,
    s: &[u8],
    out: &mut [u8],
) -> Result<(), Refusal>
    requires m_value { (forms_encoder m.old ≡ true) × (stream.value < 4096) }
    requires reads_well { ReadsWell s.now }
    ensures value { result ≡ room_answer (length (block_wire (representations_of m.old s.now))) (length out.old) }
    ensures m_unchanged { m.new ≡ m.old }
    ensures out_unchanged { out.new ≡ out.old }
{
    if s.len() <= SHORT_LIST {
        if s.len() + 2 * (s.len() / 3) <= out.len() {
            return Ok(());
        }
    }
    let n = write_list(m, stream, part, s, out, false);
    if BLOCK_LIMIT < n {
        return Err(Refusal::TooLong);
    }
    if out.len() < n {
        return Err(Refusal::NoRoom);
    }
    Ok(())
}
