//! Generated lists of calls: a link's sums answer each as rows that are summed anew do.
ghost use Rattle.std.specs.Prelude.{◌≡◌, ◌≤◌, IfOk, length};
ghost use Rattle.net_units.specs.Numbers.{level_number};

use super::plain::PlainSums;
use net_units::{Bounds, Level};
use rcsp_admission::LevelSums;
use rcsp_admission::loads::level_at;
use std::alloc::Global;
use std::process::Abort;
use std::test::Fail;
use traffic_contract::{Contract, Test};

// How many lists there are, and how many calls each has.
const LISTS: u64 = 200;

const CALLS: u64 = 120;

// The next number, of a linear congruence.
fn next(number: u64) -> u64 {
    number
        .wrapping_mul(6_364_136_223_846_793_005)
        .wrapping_add(1_442_695_040_888_963_407)
}

// The key that a number names, one of 12 that lie apart.
fn key(number: u64) -> u32 {
    (number >> 40) as u32 % 12 * 357_913_941
}

// The contract that a number names, one of four.
fn contract(number: u64) -> Result<Contract, Fail> {
    match (number >> 33) % 4 {
        0 => Ok(Contract::new(5, 10, 20, 2)?),
        1 => Ok(Contract::new(8, 16, 32, 3)?),
        2 => Ok(Contract::new(2, 20, 40, 1)?),
        _ => Ok(Contract::new(30, 30, 30, 7)?),
    }
}

// The level that a number names, one of three.
fn level(number: u64) -> Level
    ensures { level_number result ≤ 3 }
{
    level_at(1 + ((number >> 50) % 3) as u8)
}

// A channel asks for a level, and is added at the best one where its key is new.
fn offer(
    rt: &impl Abort,
    sums: &mut LevelSums,
    plain: &mut PlainSums,
    key: u32,
    contract: &Contract,
) -> Result<(), Fail>
    ensures { sums.new.server ≡ sums.old.server }
{
    sums.reserve(1)?;
    let best = sums.best(contract);
    assert_eq!(rt; best, plain.best(contract));
    let Ok(level) = best else { return Ok(()) };
    if sums.level_of(key).is_none() {
        sums.add(key, *contract, level);
        plain.add(key, *contract, level)?;
    }
    Ok(())
}

// A channel that is held moves to the level, where that isn't smaller.
fn relax(sums: &mut LevelSums, plain: &mut PlainSums, key: u32, level: Level)
    requires { level_number level ≤ length sums.old.server.bounds }
    ensures { sums.new.server ≡ sums.old.server }
{
    let Some(from) = sums.level_of(key) else {
        return;
    };
    if from.get() <= level.get() {
        sums.move_to(key, level);
        plain.move_to(key, level);
    }
}

// A channel that is held goes.
fn close(sums: &mut LevelSums, plain: &mut PlainSums, key: u32)
    ensures { sums.new.server ≡ sums.old.server }
{
    if sums.level_of(key).is_some() {
        sums.remove(key);
        plain.remove(key);
    }
}

// The call that a number names. Half are offers.
fn call(
    rt: &impl Abort,
    sums: &mut LevelSums,
    plain: &mut PlainSums,
    number: u64,
) -> Result<(), Fail>
    requires { length sums.old.server.bounds ≡ 3 }
    ensures { sums.new.server ≡ sums.old.server }
{
    match number >> 61 {
        0..=3 => offer(rt, sums, plain, key(number), &contract(number)?)?,
        4 | 5 => relax(sums, plain, key(number), level(number)),
        _ => close(sums, plain, key(number)),
    }
    Ok(())
}

// The sums of the levels.
pub(super) fn loads_of(sums: &LevelSums) -> [u64; 3]
    requires { length sums.now.server.bounds ≡ 3 }
{
    [
        sums.sum(level_at(1)),
        sums.sum(level_at(2)),
        sums.sum(level_at(3)),
    ]
}

// Makes the calls of one list by a link's sums and by plain rows, and compares what they answer.
fn answers_alike(rt: &impl Abort, alloc: Global, list: u64) -> Result<(), Fail> {
    let bounds = Bounds::new(&[10, 20, 40]).ok_or("bounds")?;
    assert_eq!(rt; bounds.len(), 3);
    let test = if list % 2 == 0 {
        Test::Whole
    } else {
        Test::Least
    };
    let mut sums = LevelSums::new(alloc, bounds, 2, 4, test);
    let mut plain = PlainSums::new(alloc, test);
    let mut number = list;
    for turn in 0..CALLS {
        number = next(number);
        call(rt, &mut sums, &mut plain, number)?;
        let loads = loads_of(&sums);
        let level = sums.level_of(key(number));
        assert_eq!(rt; loads, plain.sums(), "list {list}, call {turn}");
        assert_eq!(rt;
            level,
            plain.level_of(key(number)),
            "list {list}, call {turn}"
        );
    }
    Ok(())
}

#[test]
fn a_link_answers_as_rows_summed_anew_do(rt: HostRuntime) -> Result<(), Fail> {
    for list in 0..LISTS {
        answers_alike(&rt, rt.alloc(), list)?;
    }
    Ok(())
}
