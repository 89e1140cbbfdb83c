//! Operations of a script that need one above them, or that need none.
ghost use Rattle.std.specs.Prelude.{◌≡◌, [], IfOk, nat_eq};
ghost use Rattle.std.specs.HashSet.{contains};
ghost use Rattle.call_script.specs.Rules.{each_after, hits, misses, may_stand, stands, all_stand, are_opened};

use crate::entries::CallerEntry;
use crate::operations::Op;
use crate::roles::{Order, Role, named};
use net_units::OutOfMemory;
use std::alloc::Global;
use std::collections::HashSet;

// Whether each channel that is used or joined was opened above.
pub(crate) fn are_opened(alloc: Global, callers: &[CallerEntry]) -> Result<bool, OutOfMemory>
    ensures { IfOk result (λ kept. kept ≡ are_opened callers.now) }
{
    Ok(
        all_stand(alloc, Order::After, Role::Uses, Role::Opens, callers)?
            && all_stand(alloc, Order::After, Role::Joins, Role::Opens, callers)?,
    )
}

// Whether each operation that is `asks` to a channel stands after one that is `adds` to it, or none does.
pub(crate) fn all_stand(
    alloc: Global,
    place: Order,
    asks: Role,
    adds: Role,
    callers: &[CallerEntry],
) -> Result<bool, OutOfMemory>
    ensures { IfOk result (λ kept. kept ≡ all_stand place asks adds callers.now) }
{
    for caller in callers {
        if !ops_stand(alloc, place, asks, adds, caller.ops.as_slice())? {
            return Ok(false);
        }
    }
    Ok(true)
}

fn ops_stand(
    alloc: Global,
    place: Order,
    asks: Role,
    adds: Role,
    ops: &[Op],
) -> Result<bool, OutOfMemory>
    ensures { IfOk result (λ kept. kept ≡ each_after (stands place asks adds) [] ops.now) }
{
    let mut above = HashSet::new(alloc);
    for op in ops {
        if !may_stand(place, &above, named(asks, op)) {
            return Ok(false);
        }
        if let Some(chan) = named(adds, op) {
            above.insert(chan)?;
        }
    }
    Ok(true)
}

// Whether a channel, if there is one, is in the set, or isn't.
fn may_stand(place: Order, channels: &HashSet<u32>, chan: Option<u32>) -> bool
    ensures { result ≡ may_stand place (contains nat_eq channels.now) chan }
{
    match place {
        Order::After => !misses(channels, chan),
        Order::Apart => !hits(channels, chan),
    }
}

fn hits(channels: &HashSet<u32>, chan: Option<u32>) -> bool
    ensures { result ≡ hits (contains nat_eq channels.now) chan }
{
    match chan {
        Some(chan) => channels.contains(&chan),
        None => false,
    }
}

fn misses(channels: &HashSet<u32>, chan: Option<u32>) -> bool
    ensures { result ≡ misses (contains nat_eq channels.now) chan }
{
    match chan {
        Some(chan) => !channels.contains(&chan),
        None => false,
    }
}
