//! The least window that holds the load of a level.
ghost use Rattle.std.specs.Prelude.{◌≤◌, length};
ghost use Rattle.net_units.specs.Limits.{most_bound};
ghost use Rattle.net_units.specs.Numbers.{level_number};
ghost use Rattle.std.specs.List.{All};
ghost use Rattle.load_table.specs.Loads.{rows_in, HasContract, IsLoadOf, IsWindowWithin};

use crate::link::{LinkNumbers, LinkRow};
use crate::work::load;
use net_units::limits::MOST_BOUND;
use net_units::{Bounds, Level};
use traffic_contract::Test;

/// The load of a level beside its bound.
#[derive(Clone, Copy, Debug, PartialEq, Eq)]
pub struct LevelLoad {
    /// The window in which it is taken: as long as the bound, or under the least test the least that holds it, if the bound does.
    pub window: u64,
    /// The load in that window, in ticks.
    pub work: u64,
    /// The bound of the level.
    pub bound: u64,
}

/// The load of the levels up to this one, beside its bound.
pub fn level_load(link: &LinkNumbers, bounds: &Bounds, rows: &[LinkRow], level: Level) -> LevelLoad
    requires rate { 1 ≤ link.now.rate }
    requires few { length rows.now ≤ 1024 }
    requires within { level_number level ≤ length bounds.now }
    ensures { IsLoadOf link.now bounds.now rows.now (level_number level) result }
{
    let bound = u64::from(bounds.at(level));
    let window = match link.test {
        Test::Whole => bound,
        Test::Least => match least_window(link, rows, level, bound) {
            Some(window) => window,
            None => bound,
        },
    };
    LevelLoad {
        window,
        work: load(link, rows, level, window),
        bound,
    }
}

/// The least bound, in ticks, with which a level would hold these rows and those of the levels before it, whatever their bounds are:
/// None where no bound that a link may have is large enough.
pub fn least_bound(link: &LinkNumbers, rows: &[LinkRow], level: Level) -> Option<u64>
    requires rate { 1 ≤ link.now.rate }
    requires few { length rows.now ≤ 1024 }
    ensures { IsWindowWithin link.now rows.now (level_number level) most_bound result }
{
    least_window(link, rows, level, u64::from(MOST_BOUND))
}

/// The least window of at most so many ticks that holds the load of the levels up to this one: None where none of these does. The most
/// is from 1 to 1,048,576 ticks.
pub fn least_window(link: &LinkNumbers, rows: &[LinkRow], level: Level, most: u64) -> Option<u64>
    requires rate { 1 ≤ link.now.rate }
    requires few { length rows.now ≤ 1024 }
    requires some { 1 ≤ most }
    requires within { most ≤ most_bound }
    ensures { IsWindowWithin link.now rows.now (level_number level) most result }
{
    see_contracts(rows);
    let mut window = 1;
    while window <= most {
        let needed = load(link, rows, level, window);
        if needed <= window {
            return Some(window);
        }
        window = needed;
    }
    None
}

// Sees that each row has a contract: a longer window then brings no less work.
fn see_contracts(rows: &[LinkRow])
    ensures { All HasContract (rows_in rows.now) }
{
    for row in rows {
        let _burst = row.contract.burst();
    }
}
