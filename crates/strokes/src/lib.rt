//! Drawing by tasks: single shapes and copies of pictures on what can be seen of a window, and
//! single shapes on devices. A shape has the colours and the font of the task's context.
#![tactic(auto)]

mod bounds;
mod copies;
mod device;
mod drawing;
mod edges;
mod lines;
mod points;
mod screen;
mod shape;
mod visible;

pub use copies::copy;
pub use device::on_device;
pub use screen::on_screen;
pub use shape::Shape;
