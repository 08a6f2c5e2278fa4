//! Tests of fonts, bitmaps and the lines of classes: what is read from their texts, and the first
//! faults of other texts.
#![tactic(auto)]

#[cfg(test)]
mod bitmaps;
#[cfg(test)]
mod fonts;
#[cfg(test)]
mod lines;
