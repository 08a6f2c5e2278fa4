ghost use Rattle.std.specs.Prelude.{◌≡◌, OnOk, OnErr};
ghost use Rattle.outside.specs.Counts.{one_more};
ghost use Rattle.outside.specs.Logs.{Wrote, untold};

use crate::sink::{Sink, SinkFault};
use crate::stream::StreamSink;
use std::io::{self, Print};
use std::marker::Model;

/// The standard output. What was written isn't told.
#[derive(Drop)]
pub struct StdSink<R> {
    rt: R,
    faults: u64,
}

impl<R> Model for StdSink<R> {
    ghost use Rattle.std.specs.Prelude.{ℕ};

    ghost Value = { ℕ };

    ghost view = { λ sink. sink.faults };
}

impl<R> StdSink<R> {
    /// A sink that writes through this runtime.
    pub fn new(rt: R) -> StdSink<R>
        ensures { result ≡ 0 }
    {
        StdSink { rt, faults: 0 }
    }
}

impl<R: Print> Sink for StdSink<R> {
    ghost log = { untold };

    fn write(&mut self, piece: &[u8]) -> Result<(), SinkFault>
        ensures wrote { Wrote result (untold self.old) (untold self.new) piece.now }
        ensures ok { OnOk result (self.new ≡ self.old) }
        ensures err { OnErr result (self.new ≡ one_more self.old) }
    {
        let written = StreamSink::new(io::writer(&self.rt)).write(piece);
        if written.is_err() {
            self.faults = self.faults.saturating_add(1);
        }
        written
    }

    fn faults(&self) -> u64 {
        self.faults
    }
}
