//! What a link is asked.
//!
//! The numbers of an ask have limits (`AskFits` in `specs/Legal.antt`), which each variant names. Whoever asks has to
//! keep them.
use net_units::{ChanNo, Kind, Level, LinkNo};
use traffic_contract::Contract;

/// A packet as a link passes it on to the next one. An arrive wants a size from 1 to 65,536 units, and a due tick below
/// 2^62.
#[derive(Clone, Copy, Debug, PartialEq, Eq)]
pub struct Packet {
    /// Its channel.
    pub chan: ChanNo,
    /// Its number among the packets of its channel, from 1.
    pub number: u64,
    /// Its size in units.
    pub size: u32,
    /// The tick at which it is due: the sum of its eligible tick, level bound and propagation at the link before.
    pub due: u64,
}

/// One ask of a link. Each names its channel, but for a tick and a pour.
#[derive(Clone, Copy, Debug, PartialEq, Eq)]
pub enum Ask {
    /// Reserve for a channel, with this contract and jitter control, and an end-to-end bound of `delay` ticks.
    /// `up_reach` is the bound of the reach at the hop before, up to 1,048,576 ticks, or 0 at the first hop. `first`
    /// says that this link is the channel's first hop, and `next` is the link after it, where there is one.
    Reserve {
        chan: ChanNo,
        contract: Contract,
        kind: Kind,
        delay: u64,
        up_reach: u64,
        first: bool,
        next: Option<LinkNo>,
    },
    /// Commit a tentative reservation at this level, one of the link's. `up_bound` is the bound allotted at the hop
    /// before, up to 1,048,576 ticks, or 0 at the first hop.
    Relax {
        chan: ChanNo,
        level: Level,
        up_bound: u64,
    },
    /// Give a tentative reservation back.
    Deny {
        chan: ChanNo,
    },
    /// Plan `count` packets of `size` units at the first hop, the first at the link's clock and then one every `gap`
    /// ticks. The count is from 1 to 262,144, the gap from 1 to 1,048,576 ticks, and the size from 1 to 65,536 units.
    Submit {
        chan: ChanNo,
        count: u64,
        gap: u64,
        size: u32,
    },
    /// Close a committed reservation. `upstream` is the count of packets that the first hop has taken; the first
    /// hop itself is told none.
    Release {
        chan: ChanNo,
        upstream: Option<u64>,
    },
    /// Take a packet from the link before.
    Arrive {
        packet: Packet,
    },
    /// Let one tick pass.
    Tick,
    /// Plan `count` best-effort packets of `size` units, the first at the link's clock and then one every `gap` ticks.
    /// The link has to be one that takes best-effort packets, and the numbers have the limits of a submit.
    Pour {
        count: u64,
        gap: u64,
        size: u32,
    },
}
