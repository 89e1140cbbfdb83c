//! A schedule for operations that have ticks.
//!
//! A schedule counts steps, and how many there are depends on verdicts and packets. [`schedule_at`] makes a plan's one run in which each
//! operation comes just before the plane's round of its tick, and counts the steps as it makes them.
#![tactic(auto)]

mod making;
mod operations;
mod parts;
pub mod scheduling;
pub mod times;

pub use scheduling::{Made, schedule_at};
pub use times::{Times, TimesFault};
