//! A schedule up to a step.
ghost use Rattle.std.specs.Prelude.{◌≡◌, ◌++◌, ◌∷◌, [], IfOk, OnOk, min, take};
ghost use Rattle.run_engine.specs.schedules.Schedules.{turns_of};
ghost use Rattle.setup_points.specs.Points.{with_count};

use call_script::Do;
use net_units::OutOfMemory;
use std::alloc::Global;

/// The items of a schedule up to so many steps: these are the first steps of the schedule, or all of them where it has no more.
pub fn items_until(alloc: Global, items: &[Do], steps: usize) -> Result<Vec<Do>, OutOfMemory>
    ensures { IfOk result (λ front. turns_of front.items ≡ take steps (turns_of items.now)) }
{
    let mut front = Vec::new(alloc);
    let mut left = steps as u64;
    for item in items {
        let count = least_of(item.count, left);
        add_item(&mut front, item, count)?;
        left -= count;
    }
    Ok(front)
}

// The same items.
pub(crate) fn copied(alloc: Global, items: &[Do]) -> Result<Vec<Do>, OutOfMemory>
    ensures { IfOk result (λ made. made.items ≡ items.now) }
{
    let mut made = Vec::new(alloc);
    made.extend_from_slice(items)?;
    Ok(made)
}

// The lesser of two.
fn least_of(one: u64, other: u64) -> u64
    ensures { result ≡ min one other }
{
    if one < other { one } else { other }
}

// Adds an item with so many steps.
fn add_item(front: &mut Vec<Do>, item: &Do, count: u64) -> Result<(), OutOfMemory>
    ensures { OnOk result (front.new.items ≡ front.old.items ++ with_count item.now count ∷ []) }
{
    front.push(Do {
        line: item.line,
        actor: item.actor,
        count,
    })?;
    Ok(())
}
