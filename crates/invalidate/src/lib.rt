//! The invalid part of each window, which is to be painted again: one rectangle, which grows.
#![tactic(auto)]

mod areas;
pub mod laws;
mod windows;

pub use areas::area;
pub use windows::{first_invalid, rect, window};
