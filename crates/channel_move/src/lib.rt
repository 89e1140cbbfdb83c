//! What the caller of a channel asks to move its planned packets to another channel, over another route.
//!
//! The first channel is released at its first hop. The packets that this hop hadn't taken yet are planned on the second channel,
//! and the further hops of the first are told how many packets are still to pass them. What is asked next follows from the
//! replies so far (`Moving` in `specs/`). Nothing here takes memory. Times are in ticks, sizes in units.
#![tactic(auto)]

pub mod mover;
pub mod shifted;

pub use mover::Mover;
pub use shifted::{MoveOdd, Shifted};
