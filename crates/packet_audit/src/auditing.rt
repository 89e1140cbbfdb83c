//! What is found of a table.
ghost use Rattle.std.specs.Prelude.{◌≡◌, ◌≤◌, ◌++◌, ◌∷◌, [], List, IfOk, OnOk};
ghost use Rattle.packet_audit.specs.Promises.{delay_fault_after, found_at, found_in, jitter_fault_after, listed};
ghost use Rattle.packet_audit.specs.Trails.{TrailStands, TrailsStand};
ghost use Rattle.packet_audit.specs.declared.rows.Row.{Row as Measured};

use crate::rows::{Fault, Found, Promise, Row};
use crate::trail::Trail;
use net_units::OutOfMemory;
use std::alloc::Global;

/// All that is wrong with a table of packets, in the order of its rows. A row has two faults at most, that of its delay before that
/// of its jitter. An `Err` comes only for want of memory.
pub fn audit(alloc: Global, promises: &[Promise], rows: &[Row]) -> Result<Vec<Found>, OutOfMemory>
    ensures { IfOk result (λ found. found.items ≡ found_in promises.now rows.now) }
{
    let mut trails = new_trails(alloc, promises)?;
    let mut found = Vec::new(alloc);
    let mut number = 0;
    for row in rows {
        number += 1;
        judge(promises, &mut trails, row, number, &mut found)?;
    }
    Ok(found)
}

// A trail for each promise.
fn new_trails(alloc: Global, promises: &[Promise]) -> Result<Vec<Trail>, OutOfMemory>
    ensures { IfOk result (λ trails. TrailsStand promises.now trails.items []) }
{
    let mut trails = Vec::with_capacity(alloc, promises.len())?;
    for _number in 0..promises.len() {
        trails.push(Trail::new(alloc))?;
    }
    Ok(trails)
}

// Adds what is wrong with the row of this number, and takes it.
fn judge(
    promises: &[Promise],
    trails: &mut Vec<Trail>,
    row: &Row,
    number: usize,
    found: &mut Vec<Found>,
) -> Result<(), OutOfMemory>
    requires { (above : List Measured) × TrailsStand promises.now trails.old.items above }
    ensures found { OnOk result ((above : List Measured) → TrailsStand promises.now trails.old.items above → found.new.items ≡ found.old.items ++ found_at promises.now number above row.now) }
    ensures trails { OnOk result ((above : List Measured) → TrailsStand promises.now trails.old.items above → TrailsStand promises.now trails.new.items (row.now ∷ above)) }
{
    let Some(promise) = promises.get(row.channel) else {
        return push_fault(found, number, Some(Fault::Unknown));
    };
    if row.arrived < row.sent {
        return push_fault(found, number, Some(Fault::BeforeSent));
    }
    judge_own(promise, &mut trails[row.channel], row, number, found)
}

// Adds what is wrong with the row of this number, whose channel has this promise, and takes it.
fn judge_own(
    promise: &Promise,
    trail: &mut Trail,
    row: &Row,
    number: usize,
    found: &mut Vec<Found>,
) -> Result<(), OutOfMemory>
    requires { row.now.sent ≤ row.now.arrived }
    ensures found { OnOk result ((own : List Measured) → TrailStands promise.now trail.old own → found.new.items ≡ found.old.items ++ (listed number (delay_fault_after promise.now own row.now) ++ listed number (jitter_fault_after promise.now own row.now))) }
    ensures trail { OnOk result ((own : List Measured) → TrailStands promise.now trail.old own → TrailStands promise.now trail.new (row.now ∷ own)) }
{
    let delay = trail.delay_fault(promise, row);
    let jitter = trail.jitter_fault(promise, row);
    push_fault(found, number, delay)?;
    push_fault(found, number, jitter)?;
    trail.take(promise, row)
}

// Adds a fault of the row of this number, if there is one.
fn push_fault(
    found: &mut Vec<Found>,
    number: usize,
    fault: Option<Fault>,
) -> Result<(), OutOfMemory>
    ensures { OnOk result (found.new.items ≡ found.old.items ++ listed number fault) }
{
    if let Some(fault) = fault {
        found.push(Found { row: number, fault })?;
    }
    Ok(())
}
