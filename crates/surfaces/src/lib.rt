//! What tasks draw on, and what they draw with: the buffers of the screen, the devices, and the
//! changes of a task's context. After `Surfaces::open`, only a device that is made takes memory.
#![tactic(auto)]

mod contexts;
mod surfaces;

pub use contexts::change_context;
pub use surfaces::Surfaces;
