//! The rows of a run: what became of each packet at each hop.
use net_units::{ChanNo, LinkNo, Listed};

/// A packet's departure from a hop of its channel's route.
#[derive(Clone, Copy, Debug, PartialEq, Eq)]
pub struct HopRow {
    /// The packet's channel.
    pub chan: ChanNo,
    /// Its number among the packets of its channel, from 1.
    pub number: u64,
    /// The hop, from 1: the place of its link among those that have made an offer to the channel. It is 0 where the link
    /// has made none, and 255 from the 255th on.
    pub hop: u8,
    /// The hop's link.
    pub link: LinkNo,
    /// The packet's size in units.
    pub size: u32,
    /// The tick at which it arrived at the link.
    pub at: u64,
    /// The tick at which it was eligible there.
    pub eligible: u64,
    /// The tick at which it departed from there, the one after the last that it was on the link.
    pub departed: u64,
}

/// Rows, in an order.
pub type HopRows = Listed<HopRow>;
