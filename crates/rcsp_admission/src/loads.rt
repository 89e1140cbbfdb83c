//! The running loads of levels, and what a row adds to them.
//!
//! The load of a level is the work that the rows at this level and at those before it may bring into a window as long as the
//! level's bound (Zhang & Ferrari 1993). Whoever keeps the loads of some rows, those of a link or of a part of it, tells the
//! load of a level without looking at a row.
ghost use Rattle.std.specs.Prelude.{◌≡◌, ◌+◌, ◌^◌, ◌<◌, ◌≤◌, ℕ, length, slice_index};
ghost use Rattle.net_units.specs.Numbers.{level_number};
ghost use Rattle.net_units.specs.Limits.{most_bound};
ghost use Rattle.traffic_contract.specs.Admission.{work_in};
ghost use Rattle.rcsp_admission.specs.Loads.{level_work, row_at, AreRaised};

use net_units::{Bounds, Level, ceil_div};
use traffic_contract::Contract;

/// The ticks of work that a contract may bring in a window, on a link of this rate in units a tick.
#[tactic(auto, unfolding(traffic_contract::specs::Admission::work_in))]
pub fn work(contract: &Contract, rate: u32, window: u64) -> u64
    requires rate { 1 ≤ rate }
    requires window { window ≤ most_bound }
    ensures value { result ≡ work_in rate contract.now window }
    ensures small { result < 2 ^ 40 }
{
    contract.bound(window) * ceil_div(u64::from(contract.smax()), u64::from(rate))
}

/// Adds what a row of this contract at this level brings to the load of the level and of each level after it.
pub fn add_row(loads: &mut [u64], bounds: &Bounds, rate: u32, contract: &Contract, level: Level)
    requires rate { 1 ≤ rate }
    requires count { length bounds.now ≤ length loads.old }
    requires small { (i : ℕ) → i < length bounds.now → slice_index loads.old i < 2 ^ 62 }
    ensures { AreRaised rate bounds.now (row_at contract.now (level_number level)) loads.old loads.new }
{
    for index in level.get() - 1..bounds.len() {
        let window = u64::from(bounds.at(level_at(index + 1)));
        loads[usize::from(index)] += work(contract, rate, window);
    }
}

/// Takes what such a row brings out of the loads again. The loads have it in them.
pub fn take_row(loads: &mut [u64], bounds: &Bounds, rate: u32, contract: &Contract, level: Level)
    requires rate { 1 ≤ rate }
    requires count { length bounds.now ≤ length loads.old }
    requires within { (i : ℕ) → i < length bounds.now → level_work rate bounds.now (i + 1) (row_at contract.now (level_number level)) ≤ slice_index loads.old i }
    ensures { AreRaised rate bounds.now (row_at contract.now (level_number level)) loads.new loads.old }
{
    for index in level.get() - 1..bounds.len() {
        let window = u64::from(bounds.at(level_at(index + 1)));
        loads[usize::from(index)] -= work(contract, rate, window);
    }
}

/// The level of a number from 1 to 8.
pub fn level_at(number: u8) -> Level
    requires least { 1 ≤ number }
    requires most { number ≤ 8 }
    ensures { level_number result ≡ number }
{
    Level::new(number).unwrap()
}
