//! Admissions worked by hand, and generated lists of calls beside plain rows.
ghost use Rattle.std.specs.Prelude.{◌≡◌, ◌+◌, ◌≤◌, IfOk, OnOk, length};
ghost use Rattle.rcsp_admission.specs.Sums.{Holds, added};

use net_units::Bounds;
use rcsp_admission::loads::level_at;
use rcsp_admission::{LevelSums, NoLevel};
use std::test::Fail;
use traffic_contract::{Contract, Test};

mod generated;
mod plain;

// The best level of the contract, at which it's then added.
fn admit(sums: &mut LevelSums, key: u32, contract: &Contract) -> Result<u8, NoLevel>
    requires spare { 1 ≤ sums.old.spare }
    requires new { ¬ Holds sums.old.rows key }
    ensures server { sums.new.server ≡ sums.old.server }
    ensures rows { IfOk result (λ level. sums.new.rows ≡ added sums.old.rows key contract.now level) }
    ensures spare { OnOk result (sums.new.spare + 1 ≡ sums.old.spare) }
{
    let level = sums.best(contract)?;
    sums.add(key, *contract, level);
    Ok(level.get())
}

fn best_of(sums: &LevelSums, contract: &Contract) -> Result<u8, NoLevel> {
    sums.best(contract).map(|level| level.get())
}

// Whether the contract has no level, by this sum and bound.
fn is_denied(sums: &LevelSums, contract: &Contract, sum: u64, bound: u64) -> bool {
    sums.best(contract).err() == Some(NoLevel { sum, bound })
}

// Whether these are the sums of three levels.
fn are_sums(sums: &LevelSums, due: [u64; 3]) -> bool
    requires { length sums.now.server.bounds ≡ 3 }
{
    generated::loads_of(sums) == due
}

#[test]
#[tactic(auto, using(rcsp_admission::proofs::StaysAdmitted::not_held))]
fn admits_until_no_level_passes(rt: HostRuntime) -> Result<(), Fail> {
    let bounds = Bounds::new(&[10, 20, 40]).ok_or("bounds")?;
    assert_eq!(rt; bounds.len(), 3);
    let contract = Contract::new(5, 10, 20, 2)?;
    let mut sums = LevelSums::new(rt.alloc(), bounds, 1, 4, Test::Whole);
    sums.reserve(5)?;
    assert!(rt; admit(&mut sums, 1, &contract)? == 1);
    assert!(rt; admit(&mut sums, 2, &contract)? == 2);
    assert!(rt; admit(&mut sums, 3, &contract)? == 2);
    assert!(rt; admit(&mut sums, 4, &contract)? == 2);
    assert!(rt; is_denied(&sums, &contract, 44, 40));
    assert!(rt; are_sums(&sums, [8, 20, 36]));
    Ok(())
}

// Two packets of two ticks each come within 20 ticks, and four within 40.
#[test]
fn follows_a_row_that_moves_and_goes(rt: HostRuntime) -> Result<(), Fail> {
    let bounds = Bounds::new(&[10, 20, 40]).ok_or("bounds")?;
    assert_eq!(rt; bounds.len(), 3);
    let contract = Contract::new(5, 10, 20, 2)?;
    let mut sums = LevelSums::new(rt.alloc(), bounds, 1, 4, Test::Whole);
    sums.reserve(1)?;
    assert!(rt; admit(&mut sums, 7, &contract)? == 1);
    sums.move_to(7, level_at(3));
    assert!(rt; are_sums(&sums, [4, 4, 12]));
    sums.remove(7);
    assert!(rt; are_sums(&sums, [4, 4, 4]));
    Ok(())
}

// In 23 ticks four rows come to 28, and in 20 ticks to 20.
#[test]
#[tactic(auto, using(rcsp_admission::proofs::StaysAdmitted::not_held))]
fn finds_a_window_before_the_bound(rt: HostRuntime) -> Result<(), Fail> {
    let bounds = Bounds::new(&[23]).ok_or("bounds")?;
    assert_eq!(rt; bounds.len(), 1);
    let contract = Contract::new(5, 10, 20, 2)?;
    let mut sums = LevelSums::new(rt.alloc(), bounds, 1, 4, Test::Least);
    sums.reserve(4)?;
    assert!(rt; admit(&mut sums, 1, &contract)? == 1);
    assert!(rt; admit(&mut sums, 2, &contract)? == 1);
    assert!(rt; admit(&mut sums, 3, &contract)? == 1);
    assert!(rt; admit(&mut sums, 4, &contract)? == 1);
    assert!(rt; is_denied(&sums, &contract, 34, 23));
    assert!(rt; sums.sum(level_at(1)) == 28);
    Ok(())
}

// Three packets of a tick come into any window, and 1,024 ticks of work into each 1,025. With the four of the blocking the
// load catches up after 7 * 1,025 ticks.
#[test]
#[tactic(auto, using(rcsp_admission::proofs::StaysAdmitted::not_held))]
fn leaps_to_a_window_far_off(rt: HostRuntime) -> Result<(), Fail> {
    let bounds = Bounds::new(&[7_174, 7_175]).ok_or("bounds")?;
    assert_eq!(rt; bounds.len(), 2);
    let seldom = Contract::new(1_048_576, 1_048_576, 1_048_576, 1)?;
    let often = Contract::new(4, 4, 1_025, 4)?;
    let mut sums = LevelSums::new(rt.alloc(), bounds, 1, 4, Test::Least);
    sums.reserve(3)?;
    assert!(rt; admit(&mut sums, 1, &seldom)? == 1);
    assert!(rt; admit(&mut sums, 2, &seldom)? == 1);
    assert!(rt; admit(&mut sums, 3, &seldom)? == 1);
    assert!(rt; best_of(&sums, &often) == Ok(2));
    let always = Contract::new(1, 1, 1, 1)?;
    assert!(rt; is_denied(&sums, &always, 7_182, 7_175));
    Ok(())
}
