//! A design, in the numbers of the field.

use crate::field::Row;
use field_units::{Rate, Scale, Size, Stream, Time};
use net_units::Name;

/// A network with its streams, in the numbers of the field.
#[derive(Debug, Drop)]
pub struct Design {
    /// The tick and the unit in which they are to be counted, where the file names them.
    pub scale: Option<Scale>,
    /// How long the network runs.
    pub run: Time,
    /// Whether links compare the load of a level in the window as long as its bound alone.
    pub is_whole_test: bool,
    /// The groups of streams, whose numbers begin with 1.
    pub groups: Vec<Name>,
    /// The links, in their order.
    pub links: Vec<DesignLink>,
    /// The streams, in the order in which they are asked for: by group, then by start, then as they stand.
    pub streams: Vec<DesignStream>,
    /// The best-effort streams, by start, then as they stand.
    pub pours: Vec<DesignPour>,
    /// What the files say of each link, then of each share, and then of each stream.
    pub rows: Vec<Row>,
    /// What the file says of the network as a whole.
    pub network: Row,
    /// The names of the files: the design's own, and those of its sheets.
    pub files: Vec<String>,
}

/// A link.
#[derive(Debug, Drop)]
pub struct DesignLink {
    pub name: Name,
    /// The nodes where it begins and ends.
    pub from: Name,
    pub to: Name,
    pub rate: Rate,
    /// The largest packet that it carries.
    pub largest: Size,
    /// From a packet's departure here to its arrival at the next link.
    pub latency: Time,
    pub buffer: Size,
    /// The bounds of its levels, the most urgent first.
    pub levels: Vec<Time>,
    /// How many best-effort packets may wait.
    pub best: u32,
    /// The shares that groups have of it; without any it isn't split.
    pub quotas: Vec<DesignQuota>,
    /// Its row in the design.
    pub row: usize,
}

/// The share that a group has of a link.
#[derive(Debug, Drop)]
pub struct DesignQuota {
    /// The number of the group.
    pub group: u8,
    /// Its part of the buffer.
    pub buffer: Size,
    /// The time that its packets of the levels up to each one may take within that level's bound.
    pub levels: Vec<Time>,
    /// Its row in the design.
    pub row: usize,
}

/// The way of a stream.
#[derive(Debug, Drop)]
pub enum Way {
    /// Over these links.
    Over(Vec<Name>),
    /// The least route from one node to another.
    Between(Name, Name),
}

/// A stream.
#[derive(Debug, Drop)]
pub struct DesignStream {
    pub name: Name,
    pub way: Way,
    /// What its source sends.
    pub source: Stream,
    /// The gap at which its packets are sent when the network runs, and how many of them.
    pub pace: Time,
    pub count: u64,
    /// The delay and the jitter that are wanted.
    pub within: Time,
    pub jitter: Option<Time>,
    /// The number of its group, 0 for none.
    pub group: u8,
    /// When it is asked for, and when it is given up, where it is.
    pub start: Time,
    pub end: Option<Time>,
    /// Its row in the design.
    pub row: usize,
}

/// A best-effort stream, over one link.
#[derive(Debug, Drop)]
pub struct DesignPour {
    pub name: Name,
    pub link: Name,
    /// The gap at which its packets are sent, and how many of them.
    pub pace: Time,
    pub count: u64,
    pub size: Size,
    /// When the first is sent.
    pub start: Time,
    /// Its row in the design.
    pub row: usize,
}
