//! Hextile: rectangles of pixel values as the bytes that viewers read, and back (RFC 6143, section
//! 7.7.4). A rectangle is cut into tiles of 16 by 16 points from its own upper left corner on, from
//! left to right and top to bottom; those at its right and bottom edge may be smaller.
#![tactic(auto)]

mod counts;
mod decoding;
mod grid;
mod known;
pub mod laws;
mod loading;
mod painting;
mod pixels;
mod put;
mod reading;
mod rectangle;
mod refused;
mod sub;
mod tile;

pub use decoding::decode;
pub use known::Known;
pub use rectangle::encode;
pub use refused::DecodeRefused;
pub use sub::Sub;
