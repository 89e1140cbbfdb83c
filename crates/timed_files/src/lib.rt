//! Files whose operations have ticks or times, and the scenarios with a schedule that they become.
#![tactic(auto)]

mod at;
mod cut;
mod notes;
mod pairs;
mod refused;
mod scheduling;
mod stream_pairs;

pub use at::BadLine;
pub use refused::{BadTimed, refusal_of_timed};
pub use scheduling::schedule_text;
