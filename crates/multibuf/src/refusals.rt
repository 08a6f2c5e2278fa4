// Why a call on buffers was refused.
use thiserror::Error;

/// Why drawing was not begun.
#[derive(Clone, Copy, Debug, PartialEq, Eq, Error)]
pub enum BeginRefused {
    /// It was begun and not ended 100 times.
    #[error("drawing was begun 100 times and not ended")]
    OpenDepth,
    /// There are two buffers, and the one that isn't shown waits to be shown by this switch.
    #[error("switch {0} still waits, and no other buffer is free")]
    Waiting(u32),
}

/// Drawing was not begun, so there was nothing to end.
#[derive(Clone, Copy, Debug, PartialEq, Eq, Error)]
#[error("drawing was not begun")]
pub struct NotOpen;
