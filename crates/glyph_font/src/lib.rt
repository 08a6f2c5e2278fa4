//! Fonts: what their text says, and the first fault of a text that says none.
#![tactic(auto)]

mod draft;
mod fault;
mod font;
mod glyph;
pub mod laws;
mod place;
mod reader;

pub use draft::FontDraft;
pub use fault::{FontFault, FontLineError, FontRefused, FontWhy};
pub use font::Font;
