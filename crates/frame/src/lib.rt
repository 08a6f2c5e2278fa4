//! Frames: what is drawn on and shown, as points with colours. The origin is the upper left corner,
//! x grows to the right and y grows downwards.
#![tactic(auto)]

mod frame;
pub mod laws;

pub use frame::Frame;
