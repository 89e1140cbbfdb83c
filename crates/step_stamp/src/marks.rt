//! Marks: which actor drew a stamp, and for which ask.
use link_steps::Ask;
use net_units::ActorNo;

/// One draw: its stamp, from 1, the actor that drew it, and what that actor asks.
#[derive(Clone, Copy, Debug, PartialEq, Eq)]
pub struct Mark {
    /// The stamp, from 1 to 65 * 2^40.
    pub stamp: u64,
    /// The actor that drew it.
    pub actor: ActorNo,
    /// What the actor asks.
    pub ask: Ask,
}

/// A mark with the number of the link that it was drawn for.
#[derive(Clone, Copy, Debug, PartialEq, Eq)]
pub struct Drawn {
    /// The number of the link.
    pub link: u64,
    /// The mark.
    pub mark: Mark,
}
