//! Pictures as SVG: the pictures that frame texts tell, the rectangles of one colour that they are
//! made of, and the text that draws these.
#![tactic(auto)]

mod command;
mod draft;
mod drawing;
mod ending;
mod fault;
mod image;
pub mod laws;
mod process;
mod reader;
mod row;
mod shapes;
mod writing;

pub use drawing::draw;
pub use ending::{Ending, end};
pub use fault::{Fault, Reason};
pub use process::program;
