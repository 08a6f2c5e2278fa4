//! Why a bitmap's body could not be read.

use thiserror::Error;

/// What is wrong with a line.
#[derive(Clone, Copy, Debug, PartialEq, Eq, Error)]
pub enum BitmapWhy {
    /// It stands where a row has to stand, and is no row of the bitmap's width.
    #[error("no row of the bitmap")]
    Row,
    /// The body stops before it, it stands where the line `end` has to stand and is another one, or
    /// it follows that line.
    #[error("the end is missing, or isn't the last line")]
    End,
}

/// Why a line was not taken: memory ran out, or it is wrong.
#[derive(Clone, Copy, Debug, PartialEq, Eq, Error)]
pub enum BitmapLineError {
    #[error("out of memory")]
    Memory,
    #[error("a wrong line of a bitmap")]
    Wrong,
}

/// The first line that is wrong, counted from 1.
#[derive(Clone, Copy, Debug, PartialEq, Eq, Error)]
#[error("line {line}: {why}")]
pub struct BitmapFault {
    pub line: u32,
    pub why: BitmapWhy,
}

/// Why there is no bitmap: its body's fault, or that memory ran out.
#[derive(Clone, Copy, Debug, PartialEq, Eq, Error)]
pub enum BitmapRefused {
    #[error("{0}")]
    Fault(BitmapFault),
    #[error("out of memory")]
    Memory,
}
