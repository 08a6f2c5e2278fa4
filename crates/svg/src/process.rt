//! Drawing as a process: its words, its standard input and its standard output.

use crate::drawing::draw;
use crate::ending::Ending;
use outside::StdSink;
use std::env;
use std::io::{ErrorKind, Input};

/// Draws what the process's words ask for, from the standard input to the standard output. Words
/// that are no text are usage.
pub fn program(rt: &HostRuntime) -> Ending {
    let alloc = rt.alloc();
    let args = match env::args(rt) {
        Ok(args) => args,
        Err(error) if error.kind() == ErrorKind::OutOfMemory => return Ending::Memory,
        Err(_) => return Ending::Usage,
    };
    // The first one is the program's own name.
    let Ok(words) = args.skip(1).collect::<Vec<String>>(alloc) else {
        return Ending::Memory;
    };
    draw(alloc, &words, rt.reader(), &mut StdSink::new(rt))
}
