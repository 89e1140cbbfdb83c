//! The part of a link that its rows take in the long run.
ghost use Rattle.std.specs.Prelude.{◌≡◌, ◌^◌, ◌≤◌, length};
ghost use Rattle.traffic_contract.specs.Admission.{total};
ghost use Rattle.load_table.specs.Loads.{part_in, part_of};

use crate::link::LinkRow;
use net_units::ceil_div;
use traffic_contract::Contract;

/// All of a link, in millionths.
pub const WHOLE: u64 = 1_000_000;

/// The part of a link of this rate that the rows take in the long run, whatever their levels are, in millionths. Each row's part is rounded up.
pub fn long_run(rows: &[LinkRow], rate: u32) -> u64
    requires rate { 1 ≤ rate }
    requires few { length rows.now ≤ 1024 }
    ensures { result ≡ total (part_in rate) rows.now }
{
    let mut sum = 0;
    for row in rows {
        sum += part_of(&row.contract, rate);
    }
    sum
}

// The part that a contract takes.
fn part_of(contract: &Contract, rate: u32) -> u64
    requires { 1 ≤ rate }
    ensures value { result ≡ part_of rate contract.now }
    ensures small { result ≤ 2 ^ 50 }
{
    let size = ceil_div(u64::from(contract.smax()), u64::from(rate));
    let burst = u64::from(contract.burst());
    ceil_div(WHOLE * (burst * size), u64::from(contract.interval()))
}
