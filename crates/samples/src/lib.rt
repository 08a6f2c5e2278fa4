//! What tests and programs that are timed have in common: random numbers, and windows and what they
//! paint with, of which it is proved that a job may paint them.
#![tactic(auto)]

mod numbers;
mod setups;

pub use numbers::Numbers;
pub use setups::{are_paintable, are_single, assets_of, class};
