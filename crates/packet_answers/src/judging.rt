//! Which measured packets break a promise.
ghost use Rattle.std.specs.Prelude.{◌≡◌, IfOk, map};
ghost use Rattle.packet_audit.specs.Promises.{found_in};
ghost use Rattle.packet_answers.specs.PromisesOfRuns.{widened_by};

use crate::promises::Promises;
use net_units::OutOfMemory;
use packet_audit::{Found, Promise, Row, audit};
use std::alloc::Global;

/// Rows that were judged by promises.
#[derive(Drop)]
pub struct Judged {
    /// With what they were compared: what the accepted channels were promised, in the order of their requests.
    pub promises: Vec<Promise>,
    /// What is wrong with them, in their order.
    pub found: Vec<Found>,
}

/// Judges rows of measured packets by what a run promised, where two delays may differ by so many ticks more. A row's channel is the
/// place of its promise. An `Err` comes only for want of memory.
pub fn judge(
    alloc: Global,
    promises: &Promises,
    more: u64,
    rows: &[Row],
) -> Result<Judged, OutOfMemory>
    ensures wide { IfOk result (λ judged. judged.promises.items ≡ map (widened_by more) promises.now.list.items) }
    ensures found { IfOk result (λ judged. judged.found.items ≡ found_in (map (widened_by more) promises.now.list.items) rows.now) }
{
    let widened = promises.widened(alloc, more)?;
    let found = audit(alloc, widened.as_slice(), rows)?;
    Ok(Judged {
        promises: widened,
        found,
    })
}
