//! What each task draws with, and the contexts that it saved.
#![tactic(auto)]

mod context;
mod contexts;
pub mod laws;
mod own;
mod refused;

pub use context::Context;
pub use contexts::Contexts;
pub use refused::{ContextDepth, NoContext};
