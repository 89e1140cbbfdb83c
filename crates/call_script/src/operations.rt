//! What a caller does.

use net_units::{ChanNo, LinkNo, Listed};

/// An operation of a caller.
#[derive(Clone, Copy, Debug, PartialEq, Eq)]
pub enum Op {
    /// Open a channel: its request is set up.
    Open(ChanNo),
    /// Send `count` packets of `size` units on an established channel, the first at once and then one every `gap` ticks.
    /// The count is from 1 to 262,144, the gap from 1 to 1,048,576 ticks, and the size from 1 to 65,536 units.
    Send {
        chan: ChanNo,
        count: u64,
        gap: u64,
        size: u32,
    },
    /// Close an established channel.
    Close(ChanNo),
    /// Move the packets of an established channel that haven't been sent yet to another channel, which has the same contract and
    /// begins and ends at the same nodes.
    Move {
        old: ChanNo,
        new: ChanNo,
    },
    /// Send best-effort packets over a link, with the ranges of a send.
    Pour {
        link: LinkNo,
        count: u64,
        gap: u64,
        size: u32,
    },
}

/// The operations of a caller, in their order.
pub type Ops = Listed<Op>;
