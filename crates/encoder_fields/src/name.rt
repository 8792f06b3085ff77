// The name of an insert or of a literal: by the lowest static index with it, else the lowest dynamic one not under deletion, else by its bytes.
ghost use Rattle.std.specs.Prelude.{◌≡◌, true, ◌<◌};
ghost use Rattle.static_search.specs.Search.{find_name};
ghost use Rattle.model.specs.Encoder.{choose_name};
ghost use Rattle.state.specs.Layout.{count_of, index_at};
ghost use Rattle.state.specs.EncoderState.{encoder_of};
ghost use Rattle.state.specs.Forms.{forms_encoder};
ghost use Rattle.encoder_fields.specs.Naming.{chosen_name, static_first};

use integers::number::TableIndex;
use state::row::index_at;

// The index of the entry in row `place`.
pub fn row_index(m: &[u8], place: usize) -> TableIndex
    requires { (place < count_of m.now) × (forms_encoder m.now ≡ true) }
    ensures { result ≡ record { value = index_at m.now place } }
{
    TableIndex::new(index_at(m, place))
}

// The index of an entry with the name, or none: then it goes by its bytes. The header table is searched only where the static table has no such name.
pub fn choose_name(m: &[u8], name: &[u8]) -> Option<TableIndex>
    requires { forms_encoder m.now ≡ true }
    ensures { chosen_name name.now result ≡ choose_name (encoder_of m.now).entries name.now }
{
    match static_lookup::lookup::find_name(name) {
        Some(i) => Some(i),
        None => match name_search::names::find_name(m, name) {
            Some(place) => Some(row_index(m, place)),
            None => None,
        },
    }
}

// The same choice, where a search for name and value has told already what the header table has for the name.
pub fn static_first(name: &[u8], dynamic: Option<TableIndex>) -> Option<TableIndex>
    ensures { result ≡ static_first (find_name name.now) dynamic }
{
    static_lookup::lookup::find_name(name).or(dynamic)
}
