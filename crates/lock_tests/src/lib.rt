//! Tests of the lock: what threads leave in a history, and what each call answers.
#![tactic(auto)]

pub mod counter;
pub mod pairs;
#[cfg(test)]
mod tests;
