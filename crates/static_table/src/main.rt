// Prints the static table as the library has it, for a test against the table of another: an entry to a line, with its
// index, its name and its value, and a tab between them.
#![tactic(auto)]

ghost use Rattle.std.specs.Prelude.{◌≡◌, ℕ, ◌≤◌};
ghost use Rattle.statics.specs.Table.{last_static, static_text};

use integers::number::TableIndex;
use statics::table::{LAST, static_name, static_text, static_value};

fn main() {
    let text = static_text();
    print_entries(&text);
}

fn print_entries(text: &[u8])
    requires { text.now ≡ static_text }
{
    for i in 1..=LAST {
        print_entry(text, TableIndex::new(i));
    }
}

fn print_entry(text: &[u8], index: TableIndex)
    requires text_value { text.now ≡ static_text }
    requires le_value { (1 ≤ index.value) × (index.value ≤ last_static) }
{
    io::print_decimal(1, index.value as u64);
    io::write_all(1, b"\t");
    io::write_all(1, static_name(text, index));
    io::write_all(1, b"\t");
    io::write_all(1, static_value(text, index));
    io::write_all(1, b"\n");
}
