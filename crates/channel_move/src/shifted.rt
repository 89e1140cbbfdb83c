//! What a move comes to, and a reply that isn't one to its ask.
use link_steps::{Ask, Reply};

/// How many packets stay with the channel that is left, and how many go to the other.
#[derive(Clone, Copy, Debug, PartialEq, Eq)]
pub struct Shifted {
    /// The packets that the first hop had taken.
    pub kept: u64,
    /// The planned packets that it had not, which the other channel carries.
    pub shifted: u64,
}

/// A reply that isn't one to the ask of a move.
#[derive(Clone, Copy, Debug, PartialEq, Eq)]
pub struct MoveOdd {
    /// What was asked.
    pub ask: Ask,
    /// What was replied.
    pub reply: Reply,
}
