// Whether the decoder's table is one whose blocks are known.
ghost use Rattle.std.specs.Prelude.{◌≡◌};
ghost use Rattle.link_notes.specs.Notes.{as_written};

// Is a block as it was written for the decoder's table, where `found` says whether its sum is noted there? It is where no encoder was seen.
pub fn as_written(decoder: u64, encoder: u64, found: bool) -> bool
    ensures { result ≡ as_written decoder encoder found }
{
    if encoder == 0 {
        return true;
    }
    if encoder < decoder {
        return false;
    }
    if 1 < encoder - decoder {
        return false;
    }
    found
}
