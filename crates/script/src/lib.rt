//! Scripts: which files are scripts, what they say, and the first fault of any other file.
#![tactic(auto)]

mod draft;
mod fault;
pub mod laws;
mod reader;
mod reasons;
mod script;

pub use fault::{Reason, ScriptFault, ScriptRefused};
pub use reader::{MOST_BYTES, read};
pub use script::Script;
