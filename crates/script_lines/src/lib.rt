//! What single lines of a script say: its header's, those that open classes, fonts and bitmaps,
//! strings, and call lines, which are kept as far as a script may have so many.
#![tactic(auto)]

mod call_lines;
mod fields;

pub use call_lines::CallLines;
pub use fields::{
    bitmap_in, buffers_in, class_in, desktop_in, font_in, line_in, screen_in, string_in,
};
