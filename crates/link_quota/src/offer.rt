//! What a group has left for a new contract.
ghost use Rattle.std.specs.Prelude.{◌≡◌, ◌^◌, ◌<◌, ◌≤◌, ◌-◌, MatchResult, Some, None, IfErr, IfOk, length, slice_index};
ghost use Rattle.net_units.specs.Numbers.{level_number};
ghost use Rattle.link_quota.specs.Best.{best_of, load_of, IsLastOver};
ghost use Rattle.link_quota.specs.Places.{IsSmall};

use crate::share::Share;
use link_steps::{LinkShape, Quota};
use net_units::Level;
use rcsp_admission::loads::{level_at, work};
use traffic_contract::Contract;

// No level is within the quota: what the last one comes to with the contract there, and its quota.
#[derive(Clone, Copy)]
pub(crate) struct OverQuota {
    pub(crate) sum: u64,
    pub(crate) bound: u64,
}

// The least level from which on the load of a group, with the contract, is within its quota.
pub(crate) fn best(
    share: &Share,
    quota: &Quota,
    shape: &LinkShape,
    contract: &Contract,
) -> Result<Level, OverQuota>
    requires small { IsSmall shape.now.bounds share.now }
    ensures level { MatchResult result
        (λ level. best_of shape.now share.now quota.now contract.now ≡ Some (level_number level))
        (λ _. best_of shape.now share.now quota.now contract.now ≡ None) }
    ensures sum { IfErr result (λ over. over.sum ≡ load_of shape.now share.now contract.now (length shape.now.bounds)) }
    ensures within { IfOk result (λ level. level_number level ≤ length shape.now.bounds) }
    ensures bound { IfErr result (λ over. over.bound ≡ slice_index quota.now.levels (length shape.now.bounds - 1)) }
{
    let levels = shape.bounds.len();
    let over = last_over(share, quota, shape, contract);
    if over == levels {
        let last = level_at(levels);
        return Err(OverQuota {
            sum: load_with(share, shape, contract, last),
            bound: u64::from(quota.levels[usize::from(levels) - 1]),
        });
    }
    Ok(level_at(over + 1))
}

// The last level that is over the quota, or 0.
fn last_over(share: &Share, quota: &Quota, shape: &LinkShape, contract: &Contract) -> u8
    requires small { IsSmall shape.now.bounds share.now }
    ensures { IsLastOver shape.now share.now quota.now contract.now (length shape.now.bounds) result }
{
    let mut over = 0;
    for index in 0..shape.bounds.len() {
        let load = load_with(share, shape, contract, level_at(index + 1));
        if load > u64::from(quota.levels[usize::from(index)]) {
            over = index + 1;
        }
    }
    over
}

// The load of the levels up to this one, with a row of the contract at one of them.
fn load_with(share: &Share, shape: &LinkShape, contract: &Contract, level: Level) -> u64
    requires within { level_number level ≤ length shape.now.bounds }
    requires small { IsSmall shape.now.bounds share.now }
    ensures { result ≡ load_of shape.now share.now contract.now (level_number level) }
{
    let window = u64::from(shape.bounds.at(level));
    share.loads[usize::from(level.get()) - 1] + work(contract, shape.rate, window)
}
