//! Why a font's body could not be read.

use thiserror::Error;

/// What is wrong with a line.
#[derive(Clone, Copy, Debug, PartialEq, Eq, Error)]
pub enum FontWhy {
    /// It stands where a glyph or the line `end` has to stand, and is neither.
    #[error("neither a glyph nor the end")]
    Glyph,
    /// It is no row of its glyph.
    #[error("no row of the glyph")]
    Row,
    /// The body stops before it, or it follows the line `end`.
    #[error("the end is missing, or isn't the last line")]
    End,
}

/// Why a line was not taken: memory ran out, or it is wrong.
#[derive(Clone, Copy, Debug, PartialEq, Eq, Error)]
pub enum FontLineError {
    #[error("out of memory")]
    Memory,
    #[error("a wrong line of a font")]
    Wrong,
}

/// The first line that is wrong, counted from 1.
#[derive(Clone, Copy, Debug, PartialEq, Eq, Error)]
#[error("line {line}: {why}")]
pub struct FontFault {
    pub line: u32,
    pub why: FontWhy,
}

/// Why there is no font: its body has a fault, or memory ran out.
#[derive(Clone, Copy, Debug, PartialEq, Eq, Error)]
pub enum FontRefused {
    #[error("{0}")]
    Fault(FontFault),
    #[error("out of memory")]
    Memory,
}
