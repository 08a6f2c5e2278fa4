//! The commands as a process: its words, files and standard output, and the line and the status
//! with which it ends.

ghost use Rattle.std.specs.Prelude.{◌≡◌, ◌⊎◌};
ghost use Rattle.std.specs.Process.{exit_status};
ghost use Rattle.outside.specs.Logs.{Whole, Broken};
ghost use Rattle.mtgui_top.specs.Statuses.{error_line};

use crate::play::plain_words;
use outside::{FileStore, Sink, StdSink};
use std::env;
use std::io::ErrorKind;
use std::process::ExitCode;

const USAGE: u8 = 2;

const OUT_OF_MEMORY: u8 = 9;

/// Does what the process's words say, and answers the exit status of [`plain_words`]. Words that
/// are no text are usage.
pub fn program(rt: &HostRuntime) -> u8 {
    let alloc = rt.alloc();
    let args = match env::args(rt) {
        Ok(args) => args,
        Err(error) if error.kind() == ErrorKind::OutOfMemory => return OUT_OF_MEMORY,
        Err(_) => return USAGE,
    };
    // The first one is the program's own name.
    let Ok(words) = args.skip(1).collect::<Vec<String>>(alloc) else {
        return OUT_OF_MEMORY;
    };
    plain_words(
        alloc,
        &words,
        &mut FileStore::new(rt),
        &mut StdSink::new(rt),
    )
}

/// What the standard error is told of an exit status.
fn error_line(status: u8) -> &'static [u8]
    ensures { result.now ≡ error_line status }
{
    match status {
        2 => {
            b"usage: mtgui play FILE, paint FILE, gen NUMBER SIZE, \
            run FILE [--journal] [--vnc N] [--calls N]\n"
        }
        3 => b"mtgui: script fault\n",
        4 => b"mtgui: store fault\n",
        5 => b"mtgui: sink fault\n",
        9 => b"mtgui: out of memory\n",
        _ => b"",
    }
}

/// The end of a process: it tells a status other than 0 in one line on the standard error, and ends
/// with it. Where that line can't be written, the count of faults rises.
pub fn end<K: Sink>(status: u8, err: &mut K) -> ExitCode
    ensures status { exit_status result ≡ status }
    ensures line { Whole (K.log err.old) (K.log err.new) (error_line status)
        ⊎ Broken (K.log err.old) (K.log err.new) (error_line status) }
{
    // Where this fails, the exit status still tells.
    let _ = err.write(error_line(status));
    ExitCode::from(status)
}
