//! What a link's load goes by.
use net_units::Level;
use traffic_contract::{Contract, Test};

/// The numbers of a link, as far as admission goes, without its levels.
#[derive(Clone, Copy, Debug, PartialEq, Eq)]
pub struct LinkNumbers {
    /// The rate in units a tick.
    pub rate: u32,
    /// The ticks that the largest packet takes.
    pub blocking: u32,
    /// Which windows count.
    pub test: Test,
}

/// A channel over a link: its contract, and the level that it has there, or is thought to have.
#[derive(Clone, Copy, Debug, PartialEq, Eq)]
pub struct LinkRow {
    /// The contract.
    pub contract: Contract,
    /// The level.
    pub level: Level,
}
