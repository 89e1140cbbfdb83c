//! Puts and takings that were worked by hand, and the wheel beside a plain list.
use crate::Calendar;
use std::alloc::Global;
use std::process::Abort;
use std::test::Fail;

#[test]
fn takes_the_least_tick_and_then_the_earliest_put(rt: HostRuntime) -> Result<(), Fail> {
    let mut calendar = Calendar::new(rt.alloc())?;
    calendar.reserve(3)?;
    calendar.put(5, 1);
    calendar.put(3, 2);
    calendar.put(5, 3);
    let entries = calendar.entries(rt.alloc())?;
    assert_eq!(rt; entries.as_slice(), [(5, 1), (3, 2), (5, 3)].as_slice());
    assert_eq!(rt; calendar.take_due(2), None);
    assert_eq!(rt; calendar.due().copied(), None);
    calendar.go_on(5);
    assert_eq!(rt; calendar.due().copied(), Some(2));
    assert_eq!(rt; calendar.take_due(5), Some(2));
    assert_eq!(rt; calendar.take_due(5), Some(1));
    assert_eq!(rt; calendar.take_due(5), Some(3));
    assert_eq!(rt; calendar.take_due(5), None);
    Ok(())
}

#[test]
fn answers_as_a_plain_list(rt: HostRuntime) -> Result<(), Fail> {
    for seed in 0..20 {
        answers_alike(&rt, rt.alloc(), seed)?;
    }
    Ok(())
}

// A calendar and a plain list through one generated list of calls: each step puts a key, goes on, and takes one.
fn answers_alike(rt: &impl Abort, alloc: Global, seed: u64) -> Result<(), Fail> {
    let mut calendar = Calendar::new(alloc)?;
    let mut listed = Vec::new(alloc);
    let mut draw = seed;
    let mut now = 0;
    for key in 0..200u32 {
        draw = next_draw(draw);
        let tick = now + (draw >> 33) % 3_000;
        calendar.reserve(1)?;
        calendar.put(tick, key);
        listed.push((tick, key))?;
        now += (draw >> 45) % 40;
        assert_eq!(rt; calendar.take_due(now), take_listed(&mut listed, now));
    }
    for _left in 0..200u32 {
        now += 90;
        assert_eq!(rt; calendar.take_due(now), take_listed(&mut listed, now));
    }
    Ok(())
}

// A linear draw.
fn next_draw(draw: u64) -> u64 {
    draw.wrapping_mul(6_364_136_223_846_793_005)
        .wrapping_add(1_442_695_040_888_963_407)
}

// Takes the due key of a plain list of ticks and keys in the order in which they were put.
fn take_listed(entries: &mut Vec<(u64, u32)>, now: u64) -> Option<u32> {
    let least = entries.iter().map(|(tick, _)| *tick).min()?;
    if least > now {
        return None;
    }
    let place = entries.iter().position(|(tick, _)| *tick == least)?;
    let (_tick, key) = entries.remove(place);
    Some(key)
}
