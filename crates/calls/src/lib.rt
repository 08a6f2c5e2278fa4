//! The calls of the core, by whom they are made, and what they are answered: plain data. A call is
//! written as a word and its fields, by one table.
#![tactic(auto)]

mod ask;
mod call;
mod config;
mod entry;
pub mod laws;
mod line;
mod reply;
mod word;

pub use ask::Ask;
pub use call::Call;
pub use config::Config;
pub use entry::Entry;
pub use line::{Act, Line, call_count};
pub use reply::{Refusal, Reply};
pub use word::Word;
