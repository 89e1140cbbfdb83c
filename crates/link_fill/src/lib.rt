//! How full a link is, or the share that a group has of it: what the channels over it take, and what is left.
#![tactic(auto)]

mod crossing;
mod fill;
mod room;
mod share;

pub use crossing::{Crossing, Held, asked_rows, held_rows, kept_units};
pub use fill::{Fill, LevelFill, fill_of};
pub use room::{room_at, smallest};
pub use share::{Share, share_load};
