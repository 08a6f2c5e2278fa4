//! A nested lock that keeps one history: the passes that were made with it take turns at its value,
//! which stands for the list of their calls.
//!
//! It is generic in the value, which says by the trait `Kept` what its history is.
#![tactic(auto)]

mod entry;
mod kept;
pub mod laws;
mod lock;
mod open;
mod pass;
mod rule;
mod view;

pub use entry::Entry;
pub use kept::Kept;
pub use lock::GuiLock;
pub use pass::{Deep, NotLocked, Pass};
