//! What a link replies, and the entries of its history.
use crate::asks::{Ask, Packet};
use net_units::{Level, LinkNo};

/// Where a reservation is between its reserve and its end.
#[derive(Clone, Copy, Debug, PartialEq, Eq)]
pub enum Phase {
    /// Reserved, and neither committed nor denied.
    Tentative,
    /// Relaxed to its level; its packets are taken.
    Committed,
    /// Released; it keeps its share of the link until its hold ends.
    Closing,
}

/// A packet that has left a link.
#[derive(Clone, Copy, Debug, PartialEq, Eq)]
pub struct Sent {
    /// The packet, due at the next link at the sum of its eligible tick, level bound and propagation here.
    pub packet: Packet,
    /// The tick at which it arrived.
    pub at: u64,
    /// The tick at which it was eligible.
    pub eligible: u64,
    /// The tick at which it reaches the next link or the destination.
    pub arrives: u64,
    /// The next link of its channel's route, where there is one.
    pub next: Option<LinkNo>,
}

/// The reply to an ask.
#[derive(Clone, Copy, Debug, PartialEq, Eq)]
pub enum Reply {
    /// A reserve holds: the least level that admits the contract, and the largest to which it may be relaxed.
    Offer {
        level: Level,
        reach: Level,
    },
    /// A relax holds, at this clock.
    Relaxed {
        clock: u64,
    },
    /// A tentative reservation was given back.
    Denied,
    /// Source packets are planned, the first at this tick.
    Planned {
        clock: u64,
    },
    /// A reservation is closing: the packets that it has taken or will still take, and the planned ones that
    /// were cancelled.
    Closing {
        count: u64,
        cancelled: u64,
    },
    /// A packet was taken at this clock, and is eligible at this tick.
    Taken {
        clock: u64,
        eligible: u64,
    },
    /// The tick of this number was made. This many source packets were dropped in it, and this packet left.
    Ticked {
        clock: u64,
        full: u32,
        sent: Option<Sent>,
        /// Whether a best-effort packet left.
        best_sent: bool,
        /// Whether one was lost.
        best_lost: bool,
    },
    /// The ask was refused, and changed nothing.
    Refused(Refusal),
}

/// Why an ask is refused.
#[derive(Clone, Copy, Debug, PartialEq, Eq)]
pub enum Refusal {
    /// No level admits the contract: the load of the last level with it, and that level's bound, in ticks.
    NoLevel {
        sum: u64,
        bound: u64,
    },
    /// The units that it would keep are more than are free.
    NoBuffer {
        need: u64,
        free: u64,
    },
    /// A reservation of this channel is held, in this phase.
    Twice {
        phase: Phase,
    },
    /// The largest packet of the contract is over that of the link, in units.
    TooWide {
        smax: u64,
        cap: u64,
    },
    /// No reservation of this channel is held here, or none that the ask may name.
    NoSuch,
    /// The reservation is in this phase, and the ask wants another.
    NotInPhase {
        phase: Phase,
    },
    /// The level is below the offer or above the reach, or the bound before is over the reach before.
    Unfit {
        offer: Level,
        reach: Level,
        up_reach: u64,
    },
    /// This many planned packets are left.
    Busy {
        left: u64,
    },
    /// The packets are larger than the contract allows, in units.
    TooBig {
        size: u64,
        smax: u64,
    },
    /// Each slot of the reservation holds a packet.
    Full {
        held: u64,
        slots: u64,
    },
    /// The packet has no place here.
    Stray {
        why: Why,
    },
}

/// Why a packet has no place at a link.
#[derive(Clone, Copy, Debug, PartialEq, Eq)]
pub enum Why {
    /// No reservation of its channel is held.
    NoRow,
    /// This is its channel's first hop, which takes source packets alone.
    FirstHop,
    /// The reservation isn't committed yet.
    Uncommitted,
    /// Its number isn't the next one.
    WrongNumber { next: u64 },
    /// The reservation is closing, and has taken its count.
    PastCount { count: u64 },
    /// It is larger than the contract allows, in units.
    Big { smax: u64 },
}

/// An ask and its reply, as they stand in a link's history.
#[derive(Clone, Copy, Debug, PartialEq, Eq)]
pub struct Entry {
    pub ask: Ask,
    pub reply: Reply,
}

/// A reply that isn't one to its ask.
#[derive(Clone, Copy, Debug, PartialEq, Eq)]
pub struct Unexpected {
    /// What was asked.
    pub ask: Ask,
    /// What was replied.
    pub reply: Reply,
}
