//! Bitmaps: what their text says, and the first fault of a text that says none.
#![tactic(auto)]

mod bitmap;
mod draft;
mod fault;
pub mod laws;
mod place;
mod reader;
mod row;

pub use crate::bitmap::Bitmap;
pub use draft::BitmapDraft;
pub use fault::{BitmapFault, BitmapLineError, BitmapRefused, BitmapWhy};
