ghost use Rattle.std.specs.Prelude.{◌≡◌, option_map};
ghost use Rattle.outside.specs.Logs.{StoreLog, Reads};

use std::alloc::Global;
use thiserror::Error;

/// Why a file wasn't read.
#[derive(Clone, Copy, Debug, PartialEq, Eq, Error)]
pub enum ReadRefused {
    #[error("the file could not be read")]
    Failed,
    #[error("out of memory")]
    Memory,
}

/// Where files are read.
pub trait Store {
    /// How many reads have failed, the name of the last of them, and the files, where they are
    /// told.
    ghost log: { Self → StoreLog };

    /// The first `limit` bytes of the named file, or all of a shorter one. Any other answer than
    /// `Failed` leaves the name of the last failure as it was.
    fn read(&mut self, alloc: Global, name: &str, limit: usize) -> Result<Vec<u8>, ReadRefused>
        ensures { Reads result (log self.old) (log self.new) name.now limit };

    /// The name of the last read that answered `Failed`, and `None` before the first.
    fn failed(&self) -> Option<&str>
        ensures { option_map (λ name. name.now) result ≡ (log self.now).failed };

    /// How many reads have answered `Failed`, up to the greatest number that fits.
    fn faults(&self) -> u64
        ensures { result ≡ (log self.now).faults };
}
