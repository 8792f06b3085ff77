// Fields written in the list's form, and measured before they are.
ghost use Rattle.std.specs.Prelude.{◌≡◌, ℕ, ◌+◌, ◌<◌, ◌≤◌, length};
ghost use Rattle.memory.specs.Bytes.{overlay};
ghost use Rattle.wire.specs.Text.{name_limit, value_limit};
ghost use Rattle.fields.specs.Form.{Field, FineField, length_form, text_form, field_form, text_size, field_size};

use copying::copy::copy;
use fields::read::GROUP;
use integers::integer::WireInt;

// How many bytes a name or a value of `n` bytes takes with its length.
fn text_size(n: usize) -> usize
    requires { n ≤ value_limit }
    ensures { result ≡ text_size n }
{
    if n < GROUP { 1 + n } else { 2 + n }
}

// How many bytes a field takes.
#[tactic(auto, unfolding(fields::specs::Form::field_size))]
pub fn field_size(name: usize, value: usize) -> usize
    requires { (name ≤ name_limit) × (value ≤ value_limit) }
    ensures { result ≡ field_size name value }
{
    1 + text_size(name) + text_size(value)
}

// Writes a length at the place `at`, and answers the place after it.
pub fn write_length(n: usize, out: &mut [u8], at: usize) -> usize
    requires n_le_value_limit { n ≤ value_limit }
    requires n_in_bounds { at + length (length_form n) ≤ length out.old }
    ensures value { result ≡ at + length (length_form n) }
    ensures out_after { out.new ≡ overlay out.old at (length_form n) }
{
    WireInt::write_groups(n as u32, out, at)
}

// Writes a name or a value with its length before it, and answers the place after it.
#[tactic(auto, unfolding(fields::specs::Form::text_form))]
pub fn write_text(text: &[u8], out: &mut [u8], at: usize) -> usize
    requires text_len_bound { length text.now ≤ value_limit }
    requires text_in_bounds { at + length (text_form text.now) ≤ length out.old }
    ensures value { result ≡ at + length (text_form text.now) }
    ensures out_after { out.new ≡ overlay out.old at (text_form text.now) }
{
    let next = write_length(text.len(), out, at);
    copy(text, out, next)
}

// Writes a field at the place `at`, and answers the place after it.
#[tactic(auto, unfolding(fields::specs::Form::field_form))]
pub fn write_field(flag: u8, name: &[u8], value: &[u8], out: &mut [u8], at: usize) -> usize
    requires name_len_bound { (length name.now ≤ name_limit) × (length value.now ≤ value_limit) }
    requires value_in_bounds { at + length (field_form (record { flag = flag; name = name.now; value = value.now })) ≤ length out.old }
    ensures value { result ≡ at + length (field_form (record { flag = flag; name = name.now; value = value.now })) }
    ensures out_after { out.new ≡ overlay out.old at (field_form (record { flag = flag; name = name.now; value = value.now })) }
{
    out[at] = flag;
    let next = write_text(name, out, at + 1);
    write_text(value, out, next)
}
