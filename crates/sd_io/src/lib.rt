//! The outside as the analyser sees it: a shelf of files and sinks of bytes, in memory and real.
#![tactic(auto)]

mod memory_shelf;
mod memory_sink;
mod real_shelf;
mod real_sink;
mod sending;
mod shelf;
mod sink;
mod streams;

pub use memory_shelf::{MemoryShelf, names_differ};
pub use memory_sink::MemorySink;
pub use real_shelf::RealShelf;
pub use real_sink::RealSink;
pub use sending::send_all;
pub use shelf::{PutError, Shelf, TakeError, know_shelf};
pub use sink::{Failed, Sink, know_sink};
