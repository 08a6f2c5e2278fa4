//! Does commands on the cases of files, which the words name, and tells how each ends and what it
//! writes.
//!
//! A line `> WORDS: TITLE` begins a case: a command's words, and what the case shows. The lines
//! after it are those of the script that the file `F` has. A line `+ TEXT` is a case of its own, in
//! which the script of the lines so far ends with that text; `\n` in it ends a line, and `\xHH` is
//! a byte below 128. A script with such lines isn't a case without them.
#![tactic(auto)]

mod cases;

use crate::cases::Cases;
use outside::{FileStore, Store};
use std::process::ExitCode;
use std::{env, str};

/// The most bytes of a file of cases.
const MOST_BYTES: usize = 1_000_000;

/// Does the cases of a file. `None` where it can't be read or is no text, memory runs out, or what
/// is told can't be written.
fn do_file(rt: &HostRuntime, name: &str) -> Option<()> {
    println!(rt; "== {name}").ok()?;
    let bytes = FileStore::new(rt).read(rt.alloc(), name, MOST_BYTES).ok()?;
    let mut cases = Cases::none(rt);
    for line in str::from_utf8(&bytes).ok()?.lines() {
        cases.take(line)?;
    }
    cases.finish()
}

fn do_files(rt: &HostRuntime) -> Option<()> {
    for name in env::args(rt).ok()?.skip(1) {
        do_file(rt, name.as_str())?;
    }
    Some(())
}

fn main(rt: HostRuntime) -> ExitCode {
    ExitCode::from(u8::from(do_files(&rt).is_none()))
}
