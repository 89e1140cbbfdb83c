//! When the operations of a plan's callers are made.

use crate::refusal::{Key, Refusal};
use field_units::{Scale, Time};

/// When an operation is made.
#[derive(Clone, Copy, Debug, PartialEq, Eq)]
pub struct OpTime {
    /// The tick before whose round it is made.
    pub tick: u64,
    /// The place of its stream's row in the design: of those of one tick the one with the least is made first.
    pub row: u64,
}

/// When each of a caller's operations is made, in their order.
#[derive(Debug, Drop)]
pub struct CallerTimes {
    pub operations: Vec<OpTime>,
}

/// The tick of a time, rounded up, as the moments of packets are.
pub(crate) fn op_time(scale: &Scale, time: Time, key: Key, row: usize) -> Result<OpTime, Refusal> {
    let tick = scale
        .propagation(time)
        .map_err(|misfit| Refusal::Misfit { key, misfit })?;
    Ok(OpTime {
        tick: u64::from(tick),
        row: row as u64,
    })
}
