//! The program `mtgui`: the commands on the words, the files and the streams of a process.

use mtgui_top::{end, program};
use outside::StreamSink;
use std::process::ExitCode;

fn main(rt: HostRuntime) -> ExitCode {
    end(program(&rt), &mut StreamSink::new(rt.stderr()))
}
