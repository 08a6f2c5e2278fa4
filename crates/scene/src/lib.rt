//! Windows in their stacking order, and where each of them lies on the screen.
#![tactic(auto)]

mod ancestors;
mod clips;
pub mod laws;
mod painter;
mod place;
mod win;

pub use ancestors::Ancestors;
pub use clips::put_clips;
pub use painter::paint_whole;
pub use place::{Spot, ground, origin, screen};
pub use win::{MOST_WINDOWS, Stack, Win};
