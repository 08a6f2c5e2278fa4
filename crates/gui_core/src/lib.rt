//! The core: the windows, the picture that is shown, what each task draws with, the devices, what
//! each call does to them, and the history of all calls. After opening, only a device that is made
//! takes memory.
#![tactic(auto)]

mod gui;
pub mod laws;

pub use gui::Gui;
