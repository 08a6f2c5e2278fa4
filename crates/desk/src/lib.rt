//! What calls work on, and what each of them does to it: the windows, the picture that is drawn on,
//! what each task draws with, and the devices. The definitions stand in `specs/`; the code here is
//! the words for a change, and where a window stands.
#![tactic(auto)]

mod changes;
pub mod laws;
mod places;

pub use changes::{Change, ContextChange};
pub use places::{has_window, place_of};
