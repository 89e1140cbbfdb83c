//! For how many more channels a level has room.
ghost use Rattle.std.specs.Prelude.{◌≡◌, ◌<◌, ◌≤◌, ◌+◌, ◌-◌, Bool, true, false, IfOk, length, replicate, take};
ghost use Rattle.net_units.specs.Numbers.{level_number};
ghost use Rattle.link_fill.specs.Fills.{IsRoom, AllHold, OneExceeds, most_rows, with_more};

use crate::crossing::Crossing;
use crate::share::{Share, share_load};
use load_table::{LinkRow, long_run};
use net_units::Level;
use rcsp_admission::loads::level_at;
use std::alloc::{AllocError, Global};
use traffic_contract::Contract;

/// The most channels that a plan has.
const MOST_ROWS: usize = 1_024;

/// The smallest contract of these: the first of those that take the least part of a link of this rate in the long run. A link has a rate of at least 1.
pub fn smallest(crossings: &[Crossing], rate: u32) -> Option<Contract>
    requires rate { 1 ≤ rate }
{
    let mut best = None;
    let mut least = u64::MAX;
    for crossing in crossings {
        let part = part_of(crossing, rate);
        if part < least {
            least = part;
            best = Some(crossing.contract);
        }
    }
    best
}

// The part of a link that one takes.
fn part_of(crossing: &Crossing, rate: u32) -> u64
    requires rate { 1 ≤ rate }
{
    let row = LinkRow {
        contract: crossing.contract,
        level: Level::LEAST,
    };
    long_run(&[row], rate)
}

/// How many more rows like one there is room for beside these, at its level and as far as the schedule goes: each level from it on still holds its load. A plan
/// has no more than 1,024 requests, so that no more are counted in all.
pub fn room_at(
    alloc: Global,
    share: &Share,
    rows: &[LinkRow],
    row: &LinkRow,
) -> Result<usize, AllocError>
    requires rate { 1 ≤ share.now.numbers.rate }
    requires few { length rows.now ≤ 1024 }
    ensures { IfOk result (IsRoom share.now rows.now row.now (level_number row.now.level)) }
{
    let all = filled(alloc, rows, row)?;
    Ok(most_that_fit(share, all.as_slice(), rows, row))
}

// These rows, and as many more like one as a plan may have.
fn filled(alloc: Global, rows: &[LinkRow], row: &LinkRow) -> Result<Vec<LinkRow>, AllocError>
    requires few { length rows.now ≤ 1024 }
    ensures { IfOk result (λ all. all.items ≡ with_more rows.now row.now (1024 - length rows.now)) }
{
    let mut all = Vec::from_slice(alloc, rows)?;
    let mut more: usize = 0;
    while more < MOST_ROWS - rows.len() {
        all.push(*row)?;
        more += 1;
    }
    Ok(all)
}

// How many rows after the first ones fit.
fn most_that_fit(share: &Share, all: &[LinkRow], rows: &[LinkRow], row: &LinkRow) -> usize
    requires rate { 1 ≤ share.now.numbers.rate }
    requires few { length rows.now ≤ 1024 }
    requires all { all.now ≡ with_more rows.now row.now (1024 - length rows.now) }
    ensures { IsRoom share.now rows.now row.now (level_number row.now.level) result }
{
    let held = rows.len();
    let mut fit = 0;
    let mut over = MOST_ROWS - held + 1;
    while fit + 1 < over {
        let middle = fit + (over - fit) / 2;
        if do_fit(share, &all[..held + middle], row.level) {
            fit = middle;
        } else {
            over = middle;
        }
    }
    fit
}

// Whether these rows fit into each level from this one on.
fn do_fit(share: &Share, rows: &[LinkRow], level: Level) -> bool
    requires rate { 1 ≤ share.now.numbers.rate }
    requires few { length rows.now ≤ 1024 }
    ensures fit { result ≡ true → AllHold share.now rows.now (level_number level) }
    ensures not { result ≡ false → OneExceeds share.now rows.now (level_number level) }
{
    for index in level.get() - 1..share.bounds.len() {
        let load = share_load(share, rows, level_at(index + 1));
        if load.work > load.bound {
            return false;
        }
    }
    true
}
