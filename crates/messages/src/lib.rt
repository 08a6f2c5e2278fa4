//! Messages to windows: a window reacts by changing its values, and may hand a message on to the
//! window that it lies in.
#![tactic(auto)]

mod delivery;
pub mod laws;
mod reactions;
mod values;

pub use delivery::deliver;
pub use values::put_values;
