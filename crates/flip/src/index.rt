// Indexes of buffers, and the word that says which one waits.
ghost use Rattle.std.specs.Prelude.{◌≡◌, ℕ, ◌<◌, Option};
ghost use Rattle.flip.specs.Indexes.{index_of, confirmed_by, IsLeastApart};

/// The buffer that a word says waits.
pub(crate) fn index_of(word: u64) -> Option<u8>
    requires { word < 256 }
    ensures { result ≡ index_of word }
{
    if word == 0 {
        None
    } else {
        Some((word - 1) as u8)
    }
}

/// The buffer that was known to wait, where none is found waiting.
pub(crate) fn confirmed_by(known: Option<u8>, found: Option<u8>) -> Option<u8>
    ensures { result ≡ confirmed_by known found }
{
    match found {
        None => known,
        Some(_) => None,
    }
}

/// The least buffer that is neither shown nor waits.
pub(crate) fn least_free(buffers: u8, shown: u8, waiting: Option<u8>) -> Option<u8>
    ensures { IsLeastApart buffers shown waiting result }
{
    for k in 0..buffers {
        if k != shown && waiting != Some(k) {
            return Some(k);
        }
    }
    None
}
