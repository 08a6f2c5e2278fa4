//! Histories as texts.

use calls::{Call, Entry};
use std::alloc::{AllocError, Global};

/// The word of a call. Those that no test here makes have none.
fn word(call: &Call) -> &'static str {
    match call {
        Call::Begin => "begin",
        Call::End => "end",
        Call::Exec => "exec",
        Call::Hide { .. } => "hide",
        Call::Scan => "scan",
        _ => "?",
    }
}

/// A history as words: each call's, and `shown` with a switch's number.
pub fn told(alloc: Global, history: &[Entry]) -> Result<String, AllocError> {
    let mut text = String::new(alloc);
    for entry in history {
        match entry {
            Entry::Call { actor, call } => writeln!(text, "{actor} {}", word(call))?,
            Entry::Shown { switch } => writeln!(text, "shown {switch}")?,
        }
    }
    Ok(text)
}
