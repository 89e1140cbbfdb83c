//! Questions about a request where its own setup begins in the run of a schedule, among the channels that are held then: what it comes to and
//! is offered there with another delay or jitter, with which it would be accepted, and how many more like it, or like several together, there is
//! room for at the schedule's end.
//!
//! Each answer is of runs that were played. Delays and jitters are in ticks.
#![tactic(auto)]

mod asked;
mod fault;
mod front;
mod least;
mod ranges;
mod room;
mod row;
mod run;

pub use asked::{Decided, asked_at};
pub use fault::PointFault;
pub use front::items_until;
pub use least::{LeastAt, Question, Sought, least_at};
pub use ranges::ranges_at;
pub use room::room_after;
pub use row::row_at;
pub use run::ScheduledRun;
