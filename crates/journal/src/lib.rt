//! The texts that the program writes: pictures, answers, the summary and the line of a fault. Each
//! line is put together in room of the call's own and reaches the sink in one write, so that only
//! the sink can fail.
#![tactic(auto)]

mod colours;
pub mod laws;
mod texts;

pub use texts::{write_fault, write_frame, write_reply, write_summary, write_tick};
