//! Tests of what pictures are made of: rectangles and colours, frames, lines, and the words that
//! spell numbers and colours.
#![tactic(auto)]

#[cfg(test)]
mod frames;
#[cfg(test)]
mod lines;
#[cfg(test)]
mod rectangles;
#[cfg(test)]
mod spellings;
