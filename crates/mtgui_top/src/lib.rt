//! The commands of mtgui: words in, bytes out, and an exit status.
#![tactic(auto)]

mod command;
pub mod laws;
mod play;
mod player;
mod process;

pub use play::plain_words;
pub use process::{end, program};
