//! Texts that are written to a sink a line at a time: what telling a text does, and why a text isn't written whole.
//!
//! Lines are gathered before they are written ([`byte_ends::Gather`]). [`tell`] adds a text to what is gathered, [`tell_line`]
//! a line that wanted memory, and [`finish`] writes what is left; [`write_line`] writes a line by itself. `specs/Telling.antt`
//! says what each of them does.
#![tactic(auto)]

pub mod fault;
pub mod lines;
pub mod telling;

pub use fault::ReportFault;
pub use lines::do_line;
pub use telling::{finish, tell, tell_line, write_line};
