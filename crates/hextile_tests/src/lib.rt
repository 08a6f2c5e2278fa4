//! Tests of hextile data: worked rectangles, rectangles of pictures encoded and decoded again, and
//! data of which bytes are missing or changed.
#![tactic(auto)]

#[cfg(test)]
mod changes;
#[cfg(test)]
mod rectangles;
