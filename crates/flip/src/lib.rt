//! Which buffer a display shows and which one waits to be shown: one atomic word, into which a
//! drawer posts a buffer and from which the display's controller takes it, each in one step.
//! Neither waits for the other.
#![tactic(auto)]

mod controller;
mod drawer;
mod index;
pub mod laws;
mod rule;
mod start;
mod views;

pub use controller::Controller;
pub use drawer::{Drawer, Looked, Posted};
pub use start::{open, open_alone};
