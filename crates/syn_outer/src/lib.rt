//! Where bytes come from and go to, with faults that are counted, the words that a process was started with, and the gate of a test.
#![tactic(auto)]

mod gating;
mod memory_sinks;
mod memory_sources;
mod standard;
mod streams;
mod whole;
mod words;

pub use gating::{Gate, OpenGate, Point};
pub use memory_sinks::{MemSink, SureSink};
pub use memory_sources::{MemSource, SureSource};
pub use standard::{StdSink, StdSource};
pub use streams::{Failed, Sink, Source};
pub use whole::{ReadError, WriteFault, read_all, write_all};
pub use words::words_of;

/// A call could not have the memory that it needs.
#[derive(Clone, Copy, Debug, PartialEq, Eq)]
pub struct NoMemory;
