//! An answer as a table and sentences, and its text, CSV and JSON, with ticks as times.
#![tactic(auto)]

mod forms;
mod grid;
mod moments;

pub use forms::{Format, bytes_of};
pub use grid::{Answer, Cell, Column, Grid, Shown, Side};
pub use moments::{TimeParts, ticks_text, time_parts, time_text};
