//! Readers and writers of bytes, whose contents are told where the reader or writer tells them.

ghost use Rattle.std.specs.Prelude.{◌≡◌, ◌≤◌, take, IfOk, IfSome, OnOk, OnErr, vec_len};
ghost use Rattle.std.specs.Io.KnownBytes.{Appends};
ghost use Rattle.outside.specs.Streams.{AppendsPrefix};

use crate::sink::{Sink, SinkFault};
use crate::store::ReadRefused;
use std::alloc::Global;
use std::io::{ErrorKind, Read, Write};
use std::marker::Model;

/// How many bytes are read at once.
const PIECE: usize = 64 * 1024;

/// The first `limit` bytes of what a reader has left, or all of less. A reader that doesn't end is
/// answered `Failed`, and so is an error other than an interruption, after which it reads on.
pub fn read_prefix<F: Read + Drop>(
    alloc: Global,
    file: F,
    limit: usize,
) -> Result<Vec<u8>, ReadRefused>
    ensures limited { IfOk result (λ bytes. vec_len bytes ≤ limit) }
    ensures bytes { IfOk result
        (λ bytes. IfSome (F.remaining file) (λ left. bytes.items ≡ take limit left)) }
{
    let mut prefix = file.take(limit as u64);
    let mut bytes = Vec::new(alloc);
    let mut piece = [0; PIECE];
    // Nothing says that a reader ends, so the reads are counted.
    for _ in 0..u64::MAX {
        match prefix.read(&mut piece) {
            Ok(0) => return Ok(bytes),
            Ok(count) => {
                if bytes.extend_from_slice(&piece[..count]).is_err() {
                    return Err(ReadRefused::Memory);
                }
            }
            Err(error) if error.kind() == ErrorKind::Interrupted => {}
            Err(_) => return Err(ReadRefused::Failed),
        }
    }
    Err(ReadRefused::Failed)
}

/// Writes all of a piece. A write that takes nothing of it is a fault.
fn write_whole<W: Write>(out: &mut W, piece: &[u8]) -> Result<(), SinkFault>
    ensures ok { OnOk result (Appends (W.contents out.old) (W.contents out.new) piece.now) }
    ensures err { OnErr result (AppendsPrefix (W.contents out.old) (W.contents out.new) piece.now) }
{
    let mut rest = piece;
    for _ in 0..u64::MAX {
        if rest.is_empty() {
            return Ok(());
        }
        match out.write(rest) {
            Ok(0) => return Err(SinkFault),
            Ok(count) => rest = &rest[count..],
            Err(error) if error.kind() == ErrorKind::Interrupted => {}
            Err(_) => return Err(SinkFault),
        }
    }
    Err(SinkFault)
}

/// A writer as a sink. It tells what the writer tells. A piece that isn't taken whole is a fault.
#[derive(Drop)]
pub struct StreamSink<W> {
    out: W,
    faults: u64,
}

impl<W> Model for StreamSink<W> {
    ghost use Rattle.outside.specs.Streams.{Stream};

    ghost Value = { Stream W };

    ghost view = { λ sink. record { out = sink.out; faults = sink.faults } };
}

impl<W> StreamSink<W> {
    /// A sink of this writer, before its first fault.
    pub fn new(out: W) -> StreamSink<W>
        ensures { result ≡ record { out = out; faults = 0 } }
    {
        StreamSink { out, faults: 0 }
    }
}

impl<W: Write> Sink for StreamSink<W> {
    ghost log = { λ sink. record { faults = sink.faults; written = W.contents sink.out } };

    fn write(&mut self, piece: &[u8]) -> Result<(), SinkFault> {
        let written = write_whole(&mut self.out, piece);
        if written.is_err() {
            self.faults = self.faults.saturating_add(1);
        }
        written
    }

    fn faults(&self) -> u64 {
        self.faults
    }
}
