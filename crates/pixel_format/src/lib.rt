//! The formats in which viewers want their pixels: the 16 bytes that tell one, the value of a
//! colour in it, and that value's bytes (RFC 6143, section 7.4).
#![tactic(auto)]

mod channel;
mod fault;
mod format;
pub mod laws;

pub use fault::FormatFault;
pub use format::Format;
