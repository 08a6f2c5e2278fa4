//! Why no picture was read.

use thiserror::Error;

/// What is wrong with a line.
#[derive(Clone, Copy, Debug, PartialEq, Eq, Error)]
pub enum Reason {
    /// Its first word is `frame`, and it isn't `frame W H` with W from 1 to 1,024 and H from 1 to
    /// 768.
    #[error("no sides of a picture")]
    Sides,
    /// It is `=`, and stands for the first row.
    #[error("no row above")]
    First,
    /// It stands for a row, and isn't its runs.
    #[error("no row of the picture")]
    Row,
    /// The input ends before it, within a picture.
    #[error("the input ends within a picture")]
    Cut,
    /// The input ends before it, without the wanted picture.
    #[error("no such picture")]
    Missing,
}

/// The first line with a reason against it, counted from 1.
#[derive(Clone, Copy, Debug, PartialEq, Eq, Error)]
#[error("line {line}: {why}")]
pub struct Fault {
    pub line: usize,
    pub why: Reason,
}

/// Why a line was not taken.
#[derive(Clone, Copy, Debug, PartialEq, Eq, Error)]
pub enum LineError {
    #[error("out of memory")]
    Memory,
    #[error("{0}")]
    Wrong(Reason),
}

/// Why there is no picture.
#[derive(Clone, Copy, Debug, PartialEq, Eq, Error)]
pub enum Refused {
    #[error("{0}")]
    Fault(Fault),
    #[error("out of memory")]
    Memory,
}
