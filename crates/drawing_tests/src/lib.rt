//! Tests of drawing operations: against a plain program at every point, of what they draw with, and
//! of the spans in which they draw.
#![tactic(auto)]

#[cfg(test)]
mod assets;
#[cfg(test)]
mod coverage;
#[cfg(test)]
mod operations;
#[cfg(test)]
mod spans;
#[cfg(test)]
mod texts;
