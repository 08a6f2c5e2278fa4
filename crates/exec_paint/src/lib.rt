//! Painting the windows that wait for it: row by row, inside the parts of rows that no window above
//! hides.
#![tactic(auto)]

mod area;
mod copy;
mod layer;
mod plan;
mod row;
mod run;

pub use area::job;
pub use layer::window_of;
pub use plan::{Hole, add_hole, covers, is_opaque, meets};
pub use row::{RowPlan, add_tiles, plan_row};
pub use run::unsigned;
