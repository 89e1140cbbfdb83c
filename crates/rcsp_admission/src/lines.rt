//! Lines below the work of rows.
ghost use Rattle.std.specs.Prelude.{◌≡◌, ◌+◌, ◌*◌, ◌^◌, ◌<◌, ◌≤◌};
ghost use Rattle.net_units.specs.Numbers.{level_number};
ghost use Rattle.net_units.specs.Limits.{most_bound};
ghost use Rattle.traffic_contract.specs.Admission.{total, work_in, work_up_to};
ghost use Rattle.rcsp_admission.specs.Kept.{kept_rows};
ghost use Rattle.rcsp_admission.specs.Lines.{one_tick, IsBelow, CrossesFrom};

use crate::loads::work;
use crate::rows::KeptRow;
use net_units::{Level, ceil_div};
use traffic_contract::Contract;

// The slope of a line that rises by a tick in each tick.
const ONE_TICK: u64 = 1 << 32;

// A line that some work is nowhere below.
#[derive(Clone, Copy)]
pub(crate) struct Line {
    // Where it begins, in ticks.
    pub(crate) flat: u64,
    // How much it rises in each tick.
    pub(crate) slope: u64,
}

// The slope of the work that a contract brings into its intervals.
fn slope_of(contract: &Contract, rate: u32) -> u64
    requires rate { 1 ≤ rate }
    ensures below { IsBelow 0 result (work_in rate contract.now) 0 }
    ensures small { result ≤ 2 ^ 57 }
{
    let ticks = ceil_div(u64::from(contract.smax()), u64::from(rate));
    u64::from(contract.burst()) * ticks * ONE_TICK / u64::from(contract.interval())
}

// A line below the work of a contract from a window on: one that rises from nothing where the interval is at most `longest`,
// else a level one.
pub(crate) fn line_of(contract: &Contract, rate: u32, from: u64, longest: u64) -> Line
    requires rate { 1 ≤ rate }
    requires from { from ≤ most_bound }
    ensures below { IsBelow result.flat result.slope (work_in rate contract.now) from }
    ensures flat { result.flat < 2 ^ 40 }
    ensures slope { result.slope ≤ 2 ^ 57 }
{
    if u64::from(contract.interval()) <= longest {
        return Line {
            flat: 0,
            slope: slope_of(contract, rate),
        };
    }
    Line {
        flat: work(contract, rate, from),
        slope: 0,
    }
}

// A line below the work of the rows at levels up to this one, from a window on. Its slope is at most a tick a tick.
pub(crate) fn line_of_rows(
    rows: &[KeptRow],
    rate: u32,
    level: Level,
    from: u64,
    longest: u64,
) -> Line
    requires rate { 1 ≤ rate }
    requires from { from ≤ most_bound }
    requires few { total (work_up_to rate (level_number level) from) (kept_rows rows.now) < 2 ^ 60 }
    ensures below { IsBelow result.flat result.slope (λ w. total (work_up_to rate (level_number level) w) (kept_rows rows.now)) from }
    ensures flat { result.flat < 2 ^ 60 }
    ensures slope { result.slope ≤ one_tick }
{
    let mut flat = 0;
    let mut slope = 0;
    for row in rows {
        if row.level.get() <= level.get() {
            let line = line_of(&row.contract, rate, from, longest);
            flat += line.flat;
            slope = ONE_TICK.min(slope + line.slope);
        }
    }
    Line { flat, slope }
}

// A window before which none is as long as the line is high there. It may be over the bound.
pub(crate) fn crossing(flat: u64, slope: u64, bound: u64) -> u64
    requires flat { 1 ≤ flat }
    requires bound { bound ≤ most_bound }
    ensures { CrossesFrom flat slope result }
{
    if slope >= ONE_TICK || flat > bound {
        return bound + 1;
    }
    ceil_div(flat * ONE_TICK, ONE_TICK - slope)
}
