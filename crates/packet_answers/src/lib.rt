//! Answers about packets: what a run of a plan tells of each channel, and which measured packets break what the run promised.
#![tactic(auto)]

mod delays;
mod judging;
mod playing;
mod promises;
mod rows;
mod sources;
mod trouble;

pub use delays::longest_at;
pub use judging::{Judged, judge};
pub use playing::{Played, play};
pub use promises::Promises;
pub use rows::{ChannelRow, channel_rows, rows_told};
pub use trouble::Trouble;
