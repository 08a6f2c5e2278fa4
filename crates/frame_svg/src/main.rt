//! The program `frame_svg`: draws a picture of frame texts, from the standard input to the standard
//! output.

use outside::StreamSink;
use std::process::ExitCode;
use svg::{end, program};

fn main(rt: HostRuntime) -> ExitCode {
    end(program(&rt), &mut StreamSink::new(rt.stderr()))
}
