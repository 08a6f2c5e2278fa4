//! The windows of a screen: a tree, in which a call is a few links, and the list of its order from
//! back to front, in which parts are made invalid. After `open` nothing takes memory.
#![tactic(auto)]

mod change;
mod jobs;
mod refusals;
mod windows;

pub use windows::{NewWindow, Windows};
