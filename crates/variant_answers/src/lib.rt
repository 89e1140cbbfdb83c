//! What the variants of a network come to, each on its own, side by side on several processors.
#![tactic(auto)]

mod columns;
mod outcome;
mod rows;
mod said;
mod sheet;
mod tight;
mod trouble;

pub use outcome::{Judged, Outcome, Wanted, outcome_of};
pub use rows::outcomes_of;
pub use said::{Summary, summary_of};
pub use trouble::Trouble;
