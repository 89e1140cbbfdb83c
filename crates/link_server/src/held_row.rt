//! What a caller sees of a row that a link holds.
use link_steps::Phase;
use net_units::{ChanNo, Level};
use traffic_contract::Contract;

/// A reservation that a link holds.
#[derive(Clone, Copy, Debug, PartialEq, Eq)]
pub struct HeldRow {
    /// Its channel.
    pub chan: ChanNo,
    /// Its contract.
    pub contract: Contract,
    /// The offered level, or the allotted one once it is relaxed.
    pub level: Level,
    /// Whether it is tentative, committed or closing.
    pub phase: Phase,
    /// The units of the link's buffer that it keeps.
    pub kept: u64,
}
