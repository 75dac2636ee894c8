//! Where bytes come from and where they go: sources and sinks, each with a count of its faults, so
//! that an answer which tells of a fault can be held to one.
#![tactic(auto)]

mod memory_sink;
mod memory_source;
mod outside;
mod plan;
mod reading;
mod sink;
mod source;
mod steady;
mod writing;

pub use memory_sink::MemorySink;
pub use memory_source::MemorySource;
pub use outside::{StdSink, StdSource};
pub use plan::CallPlan;
pub use reading::{ReadFault, read_all};
pub use sink::Sink;
pub use source::{Failed, Source};
pub use steady::{NullSink, SteadySource};
pub use writing::{SinkFault, write_all};
