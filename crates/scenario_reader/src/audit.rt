//! Reading an audit's input: a scenario, the line `report`, the lines of a report, and its table of packets.
mod accepting;
pub(crate) mod draft;
pub(crate) mod place;
pub mod reader;
pub(crate) mod row;
pub(crate) mod table_reader;
