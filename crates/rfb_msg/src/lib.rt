//! What a viewer sends, read byte by byte: its version, one byte that begins its work, and then
//! messages (RFC 6143, sections 7.1, 7.3 and 7.5).
#![tactic(auto)]

mod encodings;
mod head;
pub mod laws;
mod message;
mod place;
mod reader;
mod version;

pub use message::{Encoding, Message, Step, Why};
pub use reader::Reader;
