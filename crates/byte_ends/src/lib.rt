//! Where bytes come from and go to: sources that are read, sinks that are written to, and the lines of a source.
#![tactic(auto)]

mod block;
mod fault_plan;
pub mod gather;
pub mod laws;
pub mod lines;
pub mod mem_sink;
pub mod mem_source;
mod reserved;
pub mod sink;
pub mod source;
pub mod standard;
pub mod sure_sink;
pub mod sure_source;

pub use gather::Gather;
pub use lines::{Cut, LineRefusal, Lines};
pub use mem_sink::MemSink;
pub use mem_source::MemSource;
pub use sink::{Put, Sink, WriteFault, put_all};
pub use source::{Source, Took};
pub use standard::{StdSink, StdSource};
pub use sure_sink::SureSink;
pub use sure_source::SureSource;
