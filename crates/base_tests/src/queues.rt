//! Keys that are picked, by hand and beside a plain list.
ghost use Rattle.std.specs.Prelude.{◌≡◌, length};

use crate::due::is_due;
use net_units::Level;
use static_priority::LevelQueues;
use std::alloc::Global;
use std::process::Abort;
use std::test::Fail;

// Whether this is picked next.
fn picks(queues: &mut LevelQueues, due: Option<(Level, u32)>) -> bool {
    queues.pick() == due
}

#[test]
fn picks_the_least_level_and_then_the_earliest(rt: HostRuntime) -> Result<(), Fail> {
    let least = Level::new(1).ok_or("a level")?;
    let second = Level::new(2).ok_or("a level")?;
    let mut queues = LevelQueues::new(rt.alloc(), 2)?;
    queues.reserve(3)?;
    assert!(rt; queues.is_empty());
    queues.push(second, 7);
    assert!(rt; !queues.is_empty());
    queues.push(least, 8);
    queues.push(second, 9);
    assert!(rt; picks(&mut queues, Some((least, 8))));
    assert!(rt; picks(&mut queues, Some((second, 7))));
    assert!(rt; picks(&mut queues, Some((second, 9))));
    assert!(rt; picks(&mut queues, None));
    assert!(rt; queues.is_empty());
    Ok(())
}

// The next number, of a linear congruence.
fn next(number: u64) -> u64 {
    number
        .wrapping_mul(6_364_136_223_846_793_005)
        .wrapping_add(1_442_695_040_888_963_407)
}

// Takes the earliest key of the least level of a plain list, which has the keys in the order in which they came.
fn pick_listed(listed: &mut Vec<(Level, u32)>) -> Option<(Level, u32)> {
    let least = listed.iter().map(|(level, _)| level.get()).min()?;
    let place = listed.iter().position(|(level, _)| level.get() == least)?;
    Some(listed.remove(place))
}

// A push or a pick, as a number says, of three queues and of a plain list.
#[tactic(auto, using(static_priority::proofs::NextByPlace::as_many_left))]
fn call(
    rt: &impl Abort,
    queues: &mut LevelQueues,
    listed: &mut Vec<(Level, u32)>,
    number: u64,
) -> Result<(), Fail>
    requires { length queues.old.queues ≡ 3 }
    ensures { length queues.new.queues ≡ 3 }
{
    if number >> 63 == 0 {
        is_due(rt, &queues.pick(), &pick_listed(listed));
        return Ok(());
    }
    let level = Level::new(1 + ((number >> 50) % 3) as u8).ok_or("a level")?;
    let key = (number >> 32) as u32;
    queues.reserve(1)?;
    queues.push(level, key);
    listed.push((level, key))?;
    Ok(())
}

// Makes the calls of one generated list.
fn answers_alike(rt: &impl Abort, alloc: Global, list: u64) -> Result<(), Fail> {
    let mut queues = LevelQueues::new(alloc, 3)?;
    let mut listed = Vec::new(alloc);
    let mut number = list;
    for _turn in 0..120u32 {
        number = next(number);
        call(rt, &mut queues, &mut listed, number)?;
    }
    Ok(())
}

#[test]
fn queues_answer_as_a_plain_list_does(rt: HostRuntime) -> Result<(), Fail> {
    for list in 0..200 {
        answers_alike(&rt, rt.alloc(), list)?;
    }
    Ok(())
}
