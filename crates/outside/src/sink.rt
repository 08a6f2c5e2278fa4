ghost use Rattle.std.specs.Prelude.{◌≡◌};
ghost use Rattle.outside.specs.Logs.{SinkLog, Wrote};

use thiserror::Error;

/// A piece wasn't written whole.
#[derive(Clone, Copy, Debug, PartialEq, Eq, Error)]
#[error("the bytes could not be written")]
pub struct SinkFault;

/// Where bytes are written.
pub trait Sink {
    /// How many writes have failed, and the bytes that were written, where they are told.
    ghost log: { Self → SinkLog };

    /// Appends the piece. After a failure a prefix of it was appended.
    fn write(&mut self, piece: &[u8]) -> Result<(), SinkFault>
        ensures { Wrote result (log self.old) (log self.new) piece.now };

    /// How many writes have failed, up to the greatest number that fits.
    fn faults(&self) -> u64
        ensures { result ≡ (log self.now).faults };
}
