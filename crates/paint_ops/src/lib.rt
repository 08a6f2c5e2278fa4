//! Drawing operations of window classes: their data, and drawing one of them on one row of a frame
//! inside spans.
#![tactic(auto)]

mod assets;
mod bitmaps;
mod class;
mod drawing;
mod fill;
mod glyphs;
mod op;
mod pane;
mod pen;
mod replica;
mod strip;
mod text;

pub use assets::Assets;
pub use class::{Class, Operand, React, Reaction};
pub use drawing::draw;
pub use gfx_base::{Base, Num};
pub use op::Op;
pub use text::Text;
