//! The making of a plan.
ghost use Rattle.std.specs.Prelude.{◌≡◌, ◌<◌, ◌≤◌, IfOk};
ghost use Rattle.net_units.specs.Limits.{most_requests};
ghost use Rattle.call_script.specs.Plans.{IsPlan};
ghost use Rattle.load_maker.specs.Made.{made_parts};

use crate::links::{links, short_name};
use crate::script::script;
use call_script::{CallerEntry, Ops, Plan, Version};
use net_units::OutOfMemory;
use std::alloc::Global;

// How many callers there are.
const CALLERS: u8 = 4;

// The rounds of the plane beside the callers, and those after them.
const ROUNDS: u64 = 4_000;

const TAIL: u64 = 1_000;

/// The plan of this number with `size` requests, from 1 to 1,024. The number is at most 2,147,483,647.
///
/// It has four links in a row, four callers to which the requests belong in turn, and 4,000 rounds with 1,000 after them. What
/// a request asks for and how much is sent on it is drawn from the number. An `Err` comes only for want of memory.
pub fn made(alloc: Global, number: u32, size: u32) -> Result<Plan, OutOfMemory>
    requires number { number ≤ 2147483647 }
    requires least { 1 ≤ size }
    requires most { size ≤ most_requests }
    ensures plan { IfOk result (λ plan. plan ≡ made_parts number size) }
    ensures kept { IfOk result IsPlan }
{
    let links = links(alloc)?;
    let mut requests = Vec::new(alloc);
    let mut callers = Vec::new(alloc);
    for caller in 0..CALLERS {
        let ops = script(alloc, number, size, caller, &mut requests)?;
        callers.push(CallerEntry {
            name: short_name(b'k', caller),
            group: 0,
            ops: Ops::new(ops),
        })?;
    }
    let groups = Vec::new(alloc);
    Ok(Plan::of_kept(Version::One, links, groups, requests, callers, ROUNDS, TAIL))
}
