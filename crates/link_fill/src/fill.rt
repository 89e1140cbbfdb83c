//! How full a link is.
ghost use Rattle.std.specs.Prelude.{◌≡◌, ◌≤◌, IfOk, length};
ghost use Rattle.net_units.specs.Limits.{most_bound};
ghost use Rattle.load_table.specs.Loads.{IsWindowWithin};
ghost use Rattle.net_units.specs.Numbers.{level_number};
ghost use Rattle.link_fill.specs.Fillings.{AreLevels, IsFill, IsLevel, is_room_told};

use crate::crossing::{Crossing, asked_rows, held_rows, kept_units};
use crate::room::{room_at, smallest};
use crate::share::{Share, share_load};
use load_table::{LinkNumbers, LinkRow, least_bound, long_run};
use net_units::Level;
use net_units::limits::MOST_LEVELS;
use rcsp_admission::loads::level_at;
use std::alloc::{AllocError, Global};
use traffic_contract::Contract;

/// A level of a link, or of a group's share.
#[derive(Clone, Copy, Debug, PartialEq, Eq)]
pub struct LevelFill {
    /// The work of the levels up to it, in ticks; on a link with the blocking.
    pub work: u64,
    /// What it may be: the bound of the level, or the load of the quota.
    pub bound: u64,
    /// How many more channels with the smallest contract of those asked for fit there, as far as the schedule goes: None where none is asked for.
    pub room: Option<usize>,
}

/// How full a link is, or the share that a group has of it.
#[derive(Drop)]
pub struct Fill {
    /// How many requests there are.
    pub asked: usize,
    /// How many of these are accepted.
    pub accepted: usize,
    /// The part of the link that all requests take in the long run, in millionths.
    pub long_run_asked: u64,
    /// The part that the accepted ones take.
    pub long_run: u64,
    /// The least first bound, in ticks, with which level 1 would hold all requests: None where none does that a link may have.
    pub least_asked: Option<u64>,
    /// The least with which it would hold the accepted ones.
    pub least: Option<u64>,
    /// The units of buffer that it has.
    pub buffer: u64,
    /// Those of them that the accepted ones keep.
    pub kept: u64,
    /// The levels, from level 1 on.
    pub levels: Vec<LevelFill>,
}

/// How full it is with these requests. A link has a rate of at least 1, and a plan up to 1,024 requests.
pub fn fill_of(alloc: Global, share: &Share, crossings: &[Crossing]) -> Result<Fill, AllocError>
    requires rate { 1 ≤ share.now.numbers.rate }
    requires few { length crossings.now ≤ 1024 }
    ensures { IfOk result (IsFill share.now crossings.now) }
{
    let held = held_rows(alloc, crossings)?;
    let asked = asked_rows(alloc, crossings)?;
    let numbers = &share.numbers;
    let levels = levels_of(alloc, share, crossings, held.as_slice())?;
    Ok(Fill {
        asked: crossings.len(),
        accepted: held.len(),
        long_run_asked: long_run(asked.as_slice(), numbers.rate),
        long_run: long_run(held.as_slice(), numbers.rate),
        least_asked: least_for_all(numbers, asked.as_slice()),
        least: least_for_all(numbers, held.as_slice()),
        buffer: share.units(),
        kept: kept_units(crossings),
        levels,
    })
}

// The least first bound with which level 1 would hold all these rows: the bound of a last level that has them all.
fn least_for_all(numbers: &LinkNumbers, rows: &[LinkRow]) -> Option<u64>
    requires rate { 1 ≤ numbers.now.rate }
    requires few { length rows.now ≤ 1024 }
    ensures { IsWindowWithin numbers.now rows.now 8 most_bound result }
{
    least_bound(numbers, rows, level_at(MOST_LEVELS))
}

// The levels.
fn levels_of(
    alloc: Global,
    share: &Share,
    crossings: &[Crossing],
    held: &[LinkRow],
) -> Result<Vec<LevelFill>, AllocError>
    requires rate { 1 ≤ share.now.numbers.rate }
    requires few { length held.now ≤ 1024 }
    ensures { IfOk result (λ levels. AreLevels share.now held.now (length share.now.bounds) levels.items) }
{
    let more = smallest(crossings, share.numbers.rate);
    let mut levels = Vec::new(alloc);
    for index in 0..share.bounds.len() {
        levels.push(level_of(alloc, share, held, &more, level_at(index + 1))?)?;
    }
    Ok(levels)
}

// A level.
fn level_of(
    alloc: Global,
    share: &Share,
    held: &[LinkRow],
    more: &Option<Contract>,
    level: Level,
) -> Result<LevelFill, AllocError>
    requires rate { 1 ≤ share.now.numbers.rate }
    requires few { length held.now ≤ 1024 }
    requires within { level_number level ≤ length share.now.bounds }
    ensures { IfOk result (IsLevel share.now held.now (level_number level)) }
{
    let load = share_load(share, held, level);
    let room = room_of(alloc, share, held, more, level)?;
    Ok(LevelFill {
        work: load.work,
        bound: load.bound,
        room,
    })
}

// The room of a level for more with a contract.
fn room_of(
    alloc: Global,
    share: &Share,
    held: &[LinkRow],
    more: &Option<Contract>,
    level: Level,
) -> Result<Option<usize>, AllocError>
    requires rate { 1 ≤ share.now.numbers.rate }
    requires few { length held.now ≤ 1024 }
    ensures { IfOk result (is_room_told share.now held.now (level_number level)) }
{
    match more {
        Some(contract) => {
            let row = LinkRow {
                contract: *contract,
                level,
            };
            Ok(Some(room_at(alloc, share, held, &row)?))
        }
        None => Ok(None),
    }
}
