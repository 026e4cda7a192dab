//! What lies outside of the analysis: stores of files, sinks of text, gates at which a test can
//! hold a thread.
#![tactic(auto)]

mod folder_store;
mod gate;
mod memory_sink;
mod memory_store;
mod opened_file;
mod sink;
mod std_sink;
mod store;

pub use folder_store::FolderStore;
pub use gate::{Gate, OpenGate, Point, Who};
pub use memory_sink::MemorySink;
pub use memory_store::MemoryStore;
pub use sink::{Sink, SinkError};
pub use std_sink::StdSink;
pub use store::{Store, StoreError};
