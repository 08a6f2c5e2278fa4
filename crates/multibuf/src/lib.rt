//! One to three buffers of one size, which are drawn on and shown in turn. Which part a buffer has
//! is the type that owns it, and it changes its part by a move. Points are copied only where
//! drawing begins.
#![tactic(auto)]

mod buffers;
mod copying;
mod held;
pub mod laws;
mod opening;
mod owners;
mod refusals;
mod several;
mod stock;

pub use buffers::Buffers;
pub use owners::{Back, Free, Shown, Waiting};
pub use refusals::{BeginRefused, NotOpen};
