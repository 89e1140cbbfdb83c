//! A link, or the share that a group has of it.
ghost use Rattle.std.specs.Prelude.{◌≡◌, ◌≤◌, length};
ghost use Rattle.net_units.specs.Numbers.{level_number};
ghost use Rattle.link_steps.specs.Split.{level_part};
ghost use Rattle.link_fill.specs.Fills.{IsShareLoad, units_with};

use link_steps::Quota;
use load_table::{LevelLoad, LinkNumbers, LinkRow, level_load, work_up_to};
use net_units::{Bounds, Level};

/// A link, or the share that a group has of it.
#[derive(Clone, Copy)]
pub struct Share {
    /// The numbers of the link.
    pub numbers: LinkNumbers,
    /// The bounds of its levels.
    pub bounds: Bounds,
    /// The buffer of the link.
    pub buffer: u32,
    /// The quota of a group: None of the link itself.
    pub quota: Option<Quota>,
}

impl Share {
    /// The units of buffer that it has.
    pub fn units(&self) -> u64
        ensures { result ≡ units_with self.now.buffer self.now.quota }
    {
        match &self.quota {
            Some(quota) => u64::from(quota.buffer),
            None => u64::from(self.buffer),
        }
    }
}

/// The load of the levels up to one that these rows bring, beside what the level may hold: on a link the work and the blocking beside the bound,
/// and for a group the work in a window as long as the bound beside the load of its quota. A link has a rate of at least 1, and a plan up to 1,024
/// requests.
pub fn share_load(share: &Share, rows: &[LinkRow], level: Level) -> LevelLoad
    requires rate { 1 ≤ share.now.numbers.rate }
    requires few { length rows.now ≤ 1024 }
    requires within { level_number level ≤ length share.now.bounds }
    ensures { IsShareLoad share.now rows.now (level_number level) result }
{
    match &share.quota {
        None => level_load(&share.numbers, &share.bounds, rows, level),
        Some(quota) => {
            let window = u64::from(share.bounds.at(level));
            LevelLoad {
                window,
                work: work_up_to(rows, share.numbers.rate, level, window),
                bound: quota_at(quota, level),
            }
        }
    }
}

// The load of a quota for a level.
fn quota_at(quota: &Quota, level: Level) -> u64
    ensures { result ≡ level_part (level_number level) quota.now }
{
    u64::from(quota.levels[usize::from(level.get() - 1)])
}
