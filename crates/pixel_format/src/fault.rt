use thiserror::Error;

/// Why 16 bytes tell no pixel format that is served. Where several faults stand together, it is
/// the one that comes first in this list.
#[derive(Clone, Copy, Debug, PartialEq, Eq, Error)]
pub enum FormatFault {
    /// A pixel doesn't have 8, 16 or 32 bits.
    #[error("a pixel doesn't have 8, 16 or 32 bits")]
    BadBits,
    /// The pixels are places of a colour map.
    #[error("the pixels are places of a colour map")]
    NotTrueColour,
    /// The greatest number of a channel isn't 2^k - 1 for a k from 1 to 16.
    #[error("the greatest number of a channel isn't a row of 1 to 16 set bits")]
    BadMax,
    /// A channel is shifted by more than 31 bits, or reaches beyond the pixel's bits.
    #[error("a channel lies outside the pixel")]
    BadShift,
    /// Two channels share a bit.
    #[error("two channels share a bit")]
    Overlap,
}
