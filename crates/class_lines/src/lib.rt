//! The lines of a window class's body: what each says, and how it is written. A line is a drawing
//! operation, or what the window does at a message, by one table of words and their fields.
#![tactic(auto)]

pub mod laws;
mod line;
mod reading;
mod word;

pub use line::ClassLine;
pub use reading::class_line;
pub use word::Word;
