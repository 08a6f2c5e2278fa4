//! Straight lines of points: which points a line has, and a walk over those of them that lie in a
//! clip rectangle. Geometry alone: what is done at a point is for the receiver to say.
#![tactic(auto)]

mod course;
pub mod laws;
mod plot;
mod walking;

pub use plot::Plot;
pub use walking::walk;
