//! The room that entries take in memory.

use calls::{Call, Entry};
use std::mem::size_of;

#[test]
fn an_entry_takes_at_most_96_bytes(rt: HostRuntime) {
    assert!(rt; size_of::<Entry>() <= 96);
    assert!(rt; size_of::<Call>() <= 96);
}
