//! The rows of a table of packets, what their channels were promised, and what is found of a row.
use traffic_contract::Contract;

/// What an accepted channel was promised, as long as its source keeps the contract.
#[derive(Clone, Copy, Debug, PartialEq, Eq)]
pub struct Promise {
    /// The contract of its source.
    pub contract: Contract,
    /// Each packet arrives within this many ticks of the tick at which it was sent.
    pub delay: u64,
    /// The delays of two packets differ by less than this many ticks: None where no jitter was promised.
    pub jitter: Option<u64>,
}

/// A packet of a table. A channel's packets stand in the order in which they were sent.
#[derive(Clone, Copy, Debug, PartialEq, Eq)]
pub struct Row {
    /// The number of its channel among the promises, from 0. One that isn't there stands for a channel without a promise.
    pub channel: usize,
    /// The tick at which it was sent.
    pub sent: u64,
    /// The tick at which it arrived.
    pub arrived: u64,
}

/// What is wrong with a row.
#[derive(Clone, Copy, Debug, PartialEq, Eq)]
pub enum Fault {
    /// Its channel has no promise.
    Unknown,
    /// The packet arrived before it was sent. Nothing else is made of such a row.
    BeforeSent,
    /// With this packet the source of its channel breaks its contract. From here on the channel is promised nothing.
    BreaksContract,
    /// It is late by this many ticks.
    Late { by: u64 },
    /// Its delay differs from that of a packet of its channel above it by this many ticks at most, which is too many.
    Uneven { apart: u64 },
}

/// A fault, with the row that has it.
#[derive(Clone, Copy, Debug, PartialEq, Eq)]
pub struct Found {
    /// The number of the row, from 1.
    pub row: usize,
    /// The fault.
    pub fault: Fault,
}

// The least and the largest of some delays.
#[derive(Clone, Copy)]
pub(crate) struct Spread {
    pub(crate) least: u64,
    pub(crate) most: u64,
}
