//! The kinds of lines of a scenario, each with how it is judged, how what it says is added, and its text. `table` has a row for each.
pub mod caller;
pub mod group;
pub mod header;
pub mod link;
pub mod operation;
pub mod quota;
pub mod request;
pub mod rounds;
pub mod schedule;
pub mod table;
