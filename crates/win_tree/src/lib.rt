//! The windows of a screen as a tree of linked nodes, and their order from back to front.
#![tactic(auto)]

pub mod laws;
mod links;
mod node;
mod refused;
mod search;
mod tree;

pub use refused::TreeRefused;
pub use tree::Tree;
