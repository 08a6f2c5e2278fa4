//! What the calls of the core change: the windows, the buffers of which one is shown, what each task
//! draws with, and the devices. Calls are counted, and no history is kept. After opening, only a
//! device that is made takes memory.
#![tactic(auto)]

mod engine;

pub use engine::Engine;
