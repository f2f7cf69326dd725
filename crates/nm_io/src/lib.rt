//! Input and output: sources and sinks of bytes, in memory and over std's readers and writers. Each counts its faults,
//! and its bytes are known where they can be.
#![tactic(auto)]

mod mem_sink;
mod mem_source;
mod sink;
mod source;
mod std_sink;
mod std_source;
mod whole_input;

pub use mem_sink::MemSink;
pub use mem_source::MemSource;
pub use sink::Sink;
pub use source::Source;
pub use std_sink::StdSink;
pub use std_source::StdSource;
pub use whole_input::{TakeError, take_all};
