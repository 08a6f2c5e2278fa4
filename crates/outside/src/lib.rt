//! What the program reaches outside: where files are read, and where bytes are written.
//!
//! Each object counts its faults. A call answers a fault only where that count rose in the call, or
//! stands at its last value. The forms in memory tell their contents, and the real ones don't.
#![tactic(auto)]

mod failures;
mod file_store;
mod mem_sink;
mod mem_store;
mod plan;
mod prefix;
mod sink;
mod std_sink;
mod store;
mod stream;

pub use file_store::FileStore;
pub use mem_sink::MemSink;
pub use mem_store::{MemStore, NamedFile};
pub use sink::{Sink, SinkFault};
pub use std_sink::StdSink;
pub use store::{ReadRefused, Store};
pub use stream::{StreamSink, read_prefix};
