//! Which journal has each stamp: a table with a byte a stamp.
ghost use Rattle.std.specs.Prelude.{◌≤◌, IfOk, length};
ghost use Rattle.link_steps.specs.Lists.{Each};
ghost use Rattle.race_run.specs.Order.{AreBelow, AreStampedUpTo, IsMarked, IsOrder};

use link_ledger::{Entry, Journal};
use net_units::OutOfMemory;
use std::alloc::Global;

// The number that stands at a stamp which no journal has. Networks have fewer links.
const NOBODY: u8 = 255;

/// The number of the journal that has each stamp, from stamp 0 to the last of all, and 255 where none has it. A table that memory
/// can't hold is want of memory.
pub(crate) fn order_of(alloc: Global, journals: &[Journal]) -> Result<Vec<u8>, OutOfMemory>
    requires { length journals.now ≤ 32 }
    ensures { IfOk result (λ order. IsOrder journals.now order.items) }
{
    let Some(count) = latest_in(journals).checked_add(1) else {
        return Err(OutOfMemory);
    };
    let mut order = vec![in alloc; NOBODY; count as usize]?;
    for number in 0..journals.len() {
        mark(
            &mut order,
            number as u8,
            journals[number].entries.as_slice(),
        );
    }
    Ok(order)
}

// The largest stamp of these journals, and 0 where they have none.
fn latest_in(journals: &[Journal]) -> u64
    ensures { Each (AreStampedUpTo result) journals.now }
{
    let mut latest = 0;
    for journal in journals {
        latest = later(journal.entries.as_slice(), latest);
    }
    latest
}

// The largest stamp of these entries, or this one where it is larger.
fn later(entries: &[Entry], stamp: u64) -> u64
    ensures least { stamp ≤ result }
    ensures all { Each (λ e. e.stamp ≤ result) entries.now }
{
    let mut latest = stamp;
    for entry in entries {
        latest = latest.max(entry.stamp);
    }
    latest
}

// Puts this number at the stamps of these entries.
fn mark(order: &mut Vec<u8>, number: u8, entries: &[Entry])
    requires { AreBelow (length order.old.items) entries.now }
    ensures { IsMarked number entries.now order.old.items order.new.items }
{
    for entry in entries {
        order[entry.stamp as usize] = number;
    }
}
