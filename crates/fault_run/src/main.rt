//! The program `mtgui` once more, whose stored run ends with the status of a file that is no
//! script.

use mtgui_top::{end, program};
use outside::StreamSink;
use std::process::ExitCode;

fn main(rt: HostRuntime) -> ExitCode {
    end(program(&rt), &mut StreamSink::new(rt.stderr()))
}
