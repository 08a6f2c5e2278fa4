//! Devices in memory: frames that are drawn on and never shown, each under a handle.
#![tactic(auto)]

mod device;
mod devices;
pub mod laws;
mod refused;

pub use devices::Devices;
pub use refused::DevRefused;
