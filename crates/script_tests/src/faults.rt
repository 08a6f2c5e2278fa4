//! The first faults of files that are no scripts.

use script::{Reason, ScriptFault, ScriptRefused, read};
use std::alloc::Global;

/// Whether this is the first fault of a text.
pub fn is_fault(alloc: Global, text: &[u8], line: u32, why: Reason) -> bool {
    match read(alloc, text) {
        Err(ScriptRefused::Fault(fault)) => fault == ScriptFault { line, why },
        _ => false,
    }
}

/// Whether this is the first fault of a text that begins so.
pub fn is_fault_after(alloc: Global, prefix: &str, rest: &str, line: u32, why: Reason) -> bool {
    match format!(in alloc; "{prefix}{rest}") {
        Ok(text) => is_fault(alloc, text.as_bytes(), line, why),
        Err(_) => false,
    }
}

/// The header of a script, of four lines.
pub const HEADER: &str = "mtgui 1\nscreen 8 4\nbuffers 1\ndesktop 000000\n";
