//! The rows of a designer's tables: what each request comes to and its hops have offered, with which delay and which jitter it would be
//! accepted, and how many more like several requests together there is room for.
//!
//! All numbers are of runs that were played, of plans that `question_plans` makes.
#![tactic(auto)]

mod asked;
mod hops;
mod jitter;
mod nearest;
mod ranges;
mod rows;
mod together;

pub use asked::{AmongRequests, AskedWithin};
pub use hops::{HopRow, Offer, hop_rows};
pub use nearest::{LeastJitter, least_delay_near, least_jitter_near};
pub use ranges::{Range, delay_ranges, ranges_asked};
pub use rows::{RequestRow, loosened, request_row, shortened, tight_link_of, with_any_jitter};
pub use together::{
    NextTogether, Refusal, RoomTogether, Tried, TriesMore, number_of, room_together, room_tried,
};
