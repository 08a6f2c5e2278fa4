//! Commands on one file in memory, `F`: what tests and programs of cases have in common.
#![tactic(auto)]

use mtgui_top::plain_words;
use outside::{MemSink, MemStore, NamedFile};
use std::alloc::{AllocError, Global};

/// Room for what a command writes, in bytes.
const ROOM: usize = 100_000;

/// A store whose one file is `F`, with this text. The numbers are those of the reads, from 0 on,
/// that fail.
pub fn store_of(alloc: Global, text: &str, failing: &[u64]) -> Result<MemStore, AllocError> {
    let file = NamedFile {
        name: String::from_str(alloc, "F")?,
        bytes: Vec::from_slice(alloc, text.as_bytes())?,
    };
    let files = vec![in alloc; file]?;
    Ok(MemStore::new(files, Vec::from_slice(alloc, failing)?))
}

/// The status of a command, whose words are parted by spaces.
pub fn status_of(
    alloc: Global,
    words: &str,
    mut store: MemStore,
    out: &mut MemSink,
) -> Result<u8, AllocError> {
    let mut owned = Vec::new(alloc);
    for word in words.split_whitespace() {
        owned.push(String::from_str(alloc, word)?)?;
    }
    Ok(plain_words(alloc, &owned, &mut store, out))
}

/// The status of a command on a file with this text, and what it writes, of which 100,000 bytes
/// find room. `None` where memory runs out.
pub fn written(alloc: Global, words: &str, text: &str) -> Option<(u8, MemSink)> {
    let mut out = MemSink::new(alloc, ROOM, Vec::new(alloc)).ok()?;
    let store = store_of(alloc, text, &[]).ok()?;
    let status = status_of(alloc, words, store, &mut out).ok()?;
    Some((status, out))
}
