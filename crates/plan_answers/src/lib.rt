//! Answers to a designer's questions about a plan: what each request is offered and comes to, how many more like it there is room for,
//! and with what delay it would be accepted.
//!
//! Questions are put to plans of `question_plans`, in which nothing is sent, moved or closed, so all channels that are accepted are held
//! at once. Each answer is of runs that were played.
#![tactic(auto)]

mod fit;
mod least;
mod offers;
mod trial;

pub use fit::{Next, Room, room_for};
pub use least::{Least, least_delay, verdict_with};
pub use offers::offers_among;
pub use trial::{Trial, is_acceptance};
