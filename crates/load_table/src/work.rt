//! The work of a link's rows.
ghost use Rattle.std.specs.Prelude.{◌≡◌, ◌*◌, ◌^◌, ◌≤◌, length};
ghost use Rattle.net_units.specs.Limits.{most_bound};
ghost use Rattle.net_units.specs.Numbers.{level_number};
ghost use Rattle.traffic_contract.specs.Admission.{total, work_up_to};
ghost use Rattle.load_table.specs.Loads.{load_in, rows_in};

use crate::link::{LinkNumbers, LinkRow};
use net_units::Level;
use rcsp_admission::loads::work;

/// The ticks of work that the rows at levels up to this one may bring into a window of up to 1,048,576 ticks. So much of its quota a
/// group takes whose rows these are, where the window is as long as the level's bound. A plan has no more than 1,024 rows.
pub fn work_up_to(rows: &[LinkRow], rate: u32, level: Level, window: u64) -> u64
    requires rate { 1 ≤ rate }
    requires window { window ≤ most_bound }
    requires few { length rows.now ≤ 1024 }
    ensures value { result ≡ total (work_up_to rate (level_number level) window) (rows_in rows.now) }
    ensures small { result ≤ 1024 * 2 ^ 40 }
{
    let mut sum = 0;
    for row in rows {
        if row.level.get() <= level.get() {
            sum += work(&row.contract, rate, window);
        }
    }
    sum
}

/// The load of the levels up to this one in such a window: that work and the blocking.
pub fn load(link: &LinkNumbers, rows: &[LinkRow], level: Level, window: u64) -> u64
    requires rate { 1 ≤ link.now.rate }
    requires window { window ≤ most_bound }
    requires few { length rows.now ≤ 1024 }
    ensures { result ≡ load_in link.now rows.now (level_number level) window }
{
    u64::from(link.blocking) + work_up_to(rows, link.rate, level, window)
}
