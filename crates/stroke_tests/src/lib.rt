//! Tests of strokes: small pictures, and shapes in random windows held against a plain program that
//! asks each point.
#![tactic(auto)]

#[cfg(test)]
mod coverage;
#[cfg(test)]
mod pictures;
#[cfg(test)]
mod random;
#[cfg(test)]
mod setups;
