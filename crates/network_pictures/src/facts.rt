//! What is shown of a network. All numbers are of runs that were played; here they are only drawn.
use field_units::Time;

/// A network, its links and requests.
#[derive(Drop)]
pub struct NetworkFacts {
    /// What it is called: the name of its file.
    pub title: String,
    /// How long a tick is, where that is known.
    pub tick: Option<Time>,
    /// What its file says of the whole network, in the file's own units, where it has such.
    pub written: Option<String>,
    /// The names of its nodes.
    pub nodes: Vec<String>,
    pub links: Vec<LinkFacts>,
    /// The requests, in the order in which they are opened.
    pub requests: Vec<RequestFacts>,
}

impl NetworkFacts {
    /// Whether every request is accepted.
    pub fn are_all_accepted(&self) -> bool {
        for request in &self.requests {
            if !matches!(request.outcome, Outcome::Accepted(_)) {
                return false;
            }
        }
        true
    }
}

/// A link.
#[derive(Drop)]
pub struct LinkFacts {
    pub name: String,
    /// The place of the node where it begins, and of the one where it ends.
    pub from: usize,
    pub to: usize,
    /// Units a tick.
    pub rate: u64,
    /// The largest packet that it carries, in units.
    pub cap: u64,
    /// Its propagation, in ticks.
    pub prop: u64,
    /// How full it is.
    pub fill: FillFacts,
    /// The shares of it that groups have, where it is split.
    pub shares: Vec<ShareFacts>,
    /// How many requests it refuses.
    pub refuses: u64,
    /// What the file says of it, in the file's own units, where it has such.
    pub written: Option<String>,
}

/// The share that a group has of a link.
#[derive(Drop)]
pub struct ShareFacts {
    /// The name of the group.
    pub group: String,
    /// How full it is, with the group's requests alone.
    pub fill: FillFacts,
}

/// How full a link is, or a group's share of it.
#[derive(Drop)]
pub struct FillFacts {
    /// Its buffer, in units.
    pub buffer: u64,
    /// What the accepted requests leave of it, in units.
    pub free: u64,
    /// The part of the link that the accepted requests take in the long run, in millionths.
    pub long_run: u64,
    pub levels: Vec<LevelFacts>,
    /// The places of the requests that cross it, whatever they came to.
    pub users: Vec<usize>,
    /// How many of them are accepted.
    pub accepted: u64,
}

/// A level of a link, or of a group's share.
#[derive(Clone, Copy, Debug, PartialEq, Eq)]
pub struct LevelFacts {
    /// The work of the accepted requests at the levels up to this one, in ticks; on a link with the largest packet.
    pub work: u64,
    /// What it may be, in ticks: the bound of the level, or the quota of the group.
    pub bound: u64,
    /// For how many more like the smallest request that crosses it there is room, as far as the schedule goes: None where none does.
    pub room: Option<u64>,
}

/// A request.
#[derive(Drop)]
pub struct RequestFacts {
    pub name: String,
    pub terms: Terms,
    pub outcome: Outcome,
    /// What its hops offer in all with the propagations, in ticks, where all of them offer.
    pub offered: Option<u64>,
    /// The place of its tight link.
    pub tight: Option<usize>,
    pub hops: Vec<HopFacts>,
    /// What became of its packets, where some arrived.
    pub packets: Option<PacketFacts>,
    /// What the file says of it, in the file's own units, where it has such.
    pub written: Option<String>,
}

impl RequestFacts {
    /// The longest delay of a packet that arrived, in ticks.
    pub fn worst(&self) -> Option<u64> {
        match &self.packets {
            Some(packets) => Some(packets.worst),
            None => None,
        }
    }
}

/// What became of the packets of a request in a run.
#[derive(Drop)]
pub struct PacketFacts {
    /// How many arrived.
    pub arrived: u64,
    /// The shortest and the longest delay, in ticks.
    pub least: u64,
    pub worst: u64,
    /// The number, from 1, of the first packet with the longest delay.
    pub worst_packet: u64,
    /// The delay that the request was promised in that run, in ticks.
    pub promised: Option<u64>,
    /// The delays of the packets, in ticks, in the order in which they were sent.
    pub delays: Vec<u64>,
}

/// What a request asks for.
#[derive(Clone, Copy, Debug, PartialEq, Eq)]
pub struct Terms {
    /// Its contract: ticks from a packet to the next, on the average, the interval of that average, and the largest packet in units.
    pub xmin: u64,
    pub xave: u64,
    pub interval: u64,
    pub smax: u64,
    /// The delay and the jitter that it wants, in ticks.
    pub delay: u64,
    pub jitter: Option<u64>,
}

/// What a request came to.
#[derive(Clone, Copy, Debug, PartialEq, Eq)]
pub enum Outcome {
    /// It is promised this delay, in ticks.
    Accepted(u64),
    /// It is denied.
    Denied { why: Denial, help: Help },
    /// Its setup doesn't end.
    Pending,
}

/// With what delay a denied request would be accepted, whatever its jitter.
#[derive(Clone, Copy, Debug, PartialEq, Eq)]
pub enum Help {
    /// With this one, in ticks, and not with a tick less.
    Delay(u64),
    /// With none.
    NoDelay,
    /// That wasn't asked.
    Unasked,
}

/// Why a request is denied. Hops are told by their places in its route, from 1.
#[derive(Clone, Copy, Debug, PartialEq, Eq)]
pub enum Denial {
    /// Its hops offer this delay in all.
    Delay { sum: u64 },
    /// Its last hop offers this bound.
    Jitter { last: u64 },
    /// A hop has no level for it: at the last one it would come to this work.
    Schedule { hop: u64, sum: u64, bound: u64 },
    /// A hop has no buffer for it.
    Buffer { hop: u64, need: u64, free: u64 },
    /// Its packets are too large for a hop.
    Wide { hop: u64, smax: u64, cap: u64 },
    /// A hop refuses it otherwise.
    Hop { hop: u64 },
}

/// A hop of a request.
#[derive(Clone, Copy, Debug, PartialEq, Eq)]
pub struct HopFacts {
    /// The place of its link.
    pub link: usize,
    /// The level that it offers, and that level's bound in ticks.
    pub offered: Option<(u64, u64)>,
    /// The level that the request gets there, and that level's bound in ticks.
    pub given: Option<(u64, u64)>,
    /// Its propagation, in ticks.
    pub prop: u64,
    /// How long the worst packet was there, in ticks.
    pub worst: Option<u64>,
}
