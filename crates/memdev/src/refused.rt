use thiserror::Error;

/// Why a call leaves the devices as they were.
#[derive(Clone, Copy, Debug, PartialEq, Eq, Drop, Error)]
pub enum DevRefused {
    /// A side is 0, or the size is over 1,024 by 768 points.
    #[error("bad size")]
    BadSize,
    /// There are 16 devices.
    #[error("too many devices")]
    TooMany,
    /// No device has the handle.
    #[error("no device {0}")]
    NoDevice(u32),
    /// Memory ran out.
    #[error("out of memory")]
    Memory,
}
