//! The report of a run, and the text of a schedule.
//!
//! [`write_report`] writes what a run of a plan came to: what became of each request, what each established channel has carried, what
//! each link has done, and the packets hop by hop. The text is a function of the plan and of the run's entries
//! (`specs/Report.antt`). Times are in ticks.
#![tactic(auto)]

mod channel_lines;
mod channel_tally;
mod counts;
mod delay_tally;
mod end_line;
mod findings;
mod flow;
mod link_lines;
mod link_tally;
mod move_lines;
pub mod report;
mod request_lines;
mod route_lines;
pub mod schedule;
mod source_act;
pub mod summary;
mod table;
pub mod tally;
mod words;

pub use report::{write_report, write_tallied};
pub use schedule::write_schedule;
pub use summary::{write_summary, write_tallied_summary};
pub use tally::Tally;
pub use text_writer::ReportFault;
