//! The rows of a link and their work.
ghost use Rattle.std.specs.Prelude.{◌≡◌, ◌^◌, ◌<◌, ◌≤◌};
ghost use Rattle.net_units.specs.Numbers.{level_number};
ghost use Rattle.net_units.specs.Limits.{most_bound};
ghost use Rattle.traffic_contract.specs.Admission.{total, work_up_to};
ghost use Rattle.rcsp_admission.specs.Kept.{kept_rows};

use crate::loads::work;
use net_units::Level;
use traffic_contract::Contract;

// An admitted channel under its key.
#[derive(Clone, Copy)]
pub(crate) struct KeptRow {
    pub(crate) key: u32,
    pub(crate) contract: Contract,
    pub(crate) level: Level,
}

// The ticks of work that the rows at levels up to this one may bring in a window.
pub(crate) fn work_of(rows: &[KeptRow], rate: u32, level: Level, window: u64) -> u64
    requires rate { 1 ≤ rate }
    requires window { window ≤ most_bound }
    requires fits { total (work_up_to rate (level_number level) window) (kept_rows rows.now) < 2 ^ 63 }
    ensures { result ≡ total (work_up_to rate (level_number level) window) (kept_rows rows.now) }
{
    let mut sum = 0;
    for row in rows {
        if row.level.get() <= level.get() {
            sum += work(&row.contract, rate, window);
        }
    }
    sum
}
