//! Reading a scenario, from bytes to a plan and its schedule, and writing a plan's one text.
#![tactic(auto)]

pub mod audit;
mod by_line;
pub mod cause;
pub mod draft;
pub mod item;
mod judge;
mod known;
pub mod laws;
pub mod line;
pub mod names;
pub mod reader;
pub mod uses;
pub mod values;
pub mod writer;

pub use audit::reader::read_audit;
pub use call_script::{Do, Schedule};
pub use cause::Cause;
pub use reader::{MOST_BYTES, ReadRefusal, read_plan};
pub use text_writer::ReportFault;
pub use writer::write_plan;
