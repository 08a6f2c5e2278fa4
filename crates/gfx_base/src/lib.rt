//! Points, rectangles, colours and tiles of the screen, and the coordinates that windows draw at.
//! The origin is the upper left corner, x grows to the right and y grows downwards.
#![tactic(auto)]

mod colour;
mod memory;
mod num;
mod point;
mod rect;
mod tiles;

pub use colour::Colour;
pub use memory::Memory;
pub use num::{Base, Num};
pub use point::{Point, Tile};
pub use rect::{NO_POINTS, Rect};
pub use tiles::Tiles;
