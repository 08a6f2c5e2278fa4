ghost use Rattle.std.specs.Prelude.{◌≡◌};
ghost use Rattle.hextile.specs.declared.refused.DecodeRefused.TheVariants as refused;

use std::alloc::AllocError;
use thiserror::Error;

/// Why bytes weren't decoded.
#[derive(Clone, Copy, Debug, PartialEq, Eq, Error)]
pub enum DecodeRefused {
    /// The bytes aren't hextile data of that size. `at` is the length of the longest prefix of them
    /// that begins such data.
    #[error("the bytes from {at} on aren't hextile data")]
    Bad { at: usize },
    /// There is no memory for the values.
    #[error("out of memory")]
    Memory,
}

impl From<AllocError> for DecodeRefused {
    ghost from_gives = { λ _ e. e ≡ refused.Memory };

    fn from(_: AllocError) -> DecodeRefused {
        DecodeRefused::Memory
    }
}
