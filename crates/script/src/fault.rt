//! Why a file could not be read.

ghost use Rattle.std.specs.Prelude.{◌≡◌};
ghost use Rattle.script.specs.declared.fault.LineError.TheVariants as line;
ghost use Rattle.script.specs.declared.fault.ScriptRefused.TheVariants as read;

use gfx_base::Memory;
use std::alloc::{AllocError, AllocFailed};
use thiserror::Error;

/// What is wrong with a line: the first reason that holds, in this order.
#[derive(Clone, Copy, Debug, PartialEq, Eq)]
pub enum Reason {
    /// The file is too long; told of line 0.
    TooLarge,
    /// The line has a byte outside 32 to 126.
    Ascii,
    /// It is of a form that this version doesn't build.
    Later,
    /// It isn't the header's line of its place.
    Header,
    /// It doesn't belong in the block of a font, a bitmap or a class that is open.
    Block,
    /// It begins a font, a bitmap, a string or a class after a call line.
    Late,
    /// It begins such an asset, and is misspelled, has the wrong number or is one too many.
    Asset,
    /// It is no call line.
    Call,
    /// It gives back a lock that its task doesn't hold, or takes the 101st.
    Lock,
    /// It is one line of a task or one tick too many.
    Many,
    /// The file ends before it, in the header, in a block or with an open lock.
    End,
}

/// The first line that is wrong, counted from 1 with comments, and why.
#[derive(Clone, Copy, Debug, PartialEq, Eq)]
pub struct ScriptFault {
    pub line: u32,
    pub why: Reason,
}

/// Why no script was read.
#[derive(Debug, Drop, Error)]
pub enum ScriptRefused {
    #[error("the file is no script")]
    Fault(ScriptFault),
    #[error("out of memory")]
    Memory,
}

impl From<AllocError> for ScriptRefused {
    ghost from_gives = { λ _ e. e ≡ read.Memory };

    fn from(_: AllocError) -> ScriptRefused {
        ScriptRefused::Memory
    }
}

/// Why one line could not be read.
#[derive(Debug, Drop)]
pub enum LineError {
    Memory,
    Wrong(Reason),
}

impl<T: Drop> From<AllocFailed<T>> for LineError {
    ghost from_gives = { λ _ e. e ≡ line.Memory };

    fn from(_: AllocFailed<T>) -> LineError {
        LineError::Memory
    }
}

impl From<AllocError> for LineError {
    ghost from_gives = { λ _ e. e ≡ line.Memory };

    fn from(_: AllocError) -> LineError {
        LineError::Memory
    }
}

impl From<Memory> for LineError {
    ghost from_gives = { λ _ e. e ≡ line.Memory };

    fn from(_: Memory) -> LineError {
        LineError::Memory
    }
}
