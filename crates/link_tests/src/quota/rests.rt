//! Ticks in which nothing falls due, made at once and one by one.
ghost use Rattle.std.specs.Prelude.{◌+◌, ◌≤◌, IfOk};

use super::{Opened, chan, relax, reserve, step};
use link_quota::{AnyLink, QuotaLink};
use link_steps::{Ask, LinkStep, Reply};
use std::alloc::Global;
use std::process::Abort;
use std::test::Fail;

// A channel's packets, one each ten ticks. With the third tick the first of them has left, and the next is planned for tick 10.
fn begun<L: LinkStep>(link: L) -> Result<L, Fail> {
    let mut link = link;
    let sends = Ask::Submit {
        chan: chan(1)?,
        count: 3,
        gap: 10,
        size: 2,
    };
    step(&mut link, &reserve(1, 12)?)?;
    step(&mut link, &relax(1, 1)?)?;
    step(&mut link, &sends)?;
    for _tick in 0..3 {
        step(&mut link, &Ask::Tick)?;
    }
    Ok(link)
}

// How many ticks are left before the one until which a link rests.
fn left(clock: u64, until: u64) -> Result<u64, Fail>
    ensures within { IfOk result (λ ticks. clock + ticks ≤ until) }
    ensures early { IfOk result (λ ticks. clock + ticks ≤ 1048576) }
{
    if until < clock || until > 1 << 20 {
        return Err(Fail::from("it rests until another tick"));
    }
    Ok(until - clock)
}

// A link that makes at once the ticks in which nothing falls due.
trait Stride: Opened {
    // Makes the ticks before the one until which it rests, and answers how many they are.
    fn stride(&mut self) -> Result<u64, Fail>;
}

impl Stride for QuotaLink {
    fn stride(&mut self) -> Result<u64, Fail> {
        let until = self.rests_until();
        let ticks = left(self.clock(), until)?;
        self.rest(ticks);
        Ok(ticks)
    }
}

impl Stride for AnyLink {
    fn stride(&mut self) -> Result<u64, Fail> {
        let until = self.rests_until();
        let ticks = left(self.clock(), until)?;
        self.rest(ticks);
        Ok(ticks)
    }
}

// Whether this many ticks, made one by one, are quiet.
fn are_quiet<L: LinkStep>(link: &mut L, ticks: u64) -> Result<bool, Fail> {
    for _tick in 0..ticks {
        let quiet = Reply::Ticked {
            clock: link.clock(),
            full: 0,
            sent: None,
            best_sent: false,
            best_lost: false,
        };
        if step(link, &Ask::Tick)? != quiet {
            return Ok(false);
        }
    }
    Ok(true)
}

// In how many of the next ticks a packet leaves, where two links answer all of them alike.
fn leave_alike<L: LinkStep, M: LinkStep>(
    one: L,
    other: M,
    ticks: u64,
) -> Result<Option<u64>, Fail> {
    let mut one = one;
    let mut other = other;
    let mut left: u64 = 0;
    for _tick in 0..ticks {
        let reply = step(&mut one, &Ask::Tick)?;
        if step(&mut other, &Ask::Tick)? != reply {
            return Ok(None);
        }
        if let Reply::Ticked { sent: Some(_), .. } = reply {
            left = left.wrapping_add(1);
        }
    }
    Ok(Some(left))
}

// In how many of the twenty ticks after the next seven a packet leaves, where two links answer all of them alike, of which one makes
// the seven at once and the other one by one.
fn leave_after_seven<L: Stride, M: LinkStep>(one: L, other: M) -> Result<Option<u64>, Fail> {
    let mut one = one;
    let mut other = other;
    if one.stride()? != 7 {
        return Err(Fail::from("it rests for another number of ticks"));
    }
    if !are_quiet(&mut other, 7)? {
        return Err(Fail::from("one of seven ticks isn't quiet"));
    }
    leave_alike(one, other, 20)
}

// After ticks 0, 1 and 2 a link rests for seven, and two packets leave in ticks 10 to 29, whether it makes the seven at once or one by one.
fn rests_as_it_ticks<L: Stride>(rt: &impl Abort, alloc: Global, splits: bool) -> Result<(), Fail> {
    let one = begun(L::open(alloc, splits)?)?;
    let other = begun(L::open(alloc, splits)?)?;
    assert_eq!(rt; leave_after_seven(one, other)?, Some(2), "{splits}");
    Ok(())
}

#[test]
fn a_split_link_rests_as_it_ticks(rt: HostRuntime) -> Result<(), Fail> {
    rests_as_it_ticks::<QuotaLink>(&rt, rt.alloc(), true)
}

#[test]
fn a_link_of_either_kind_rests_as_it_ticks(rt: HostRuntime) -> Result<(), Fail> {
    rests_as_it_ticks::<AnyLink>(&rt, rt.alloc(), true)?;
    rests_as_it_ticks::<AnyLink>(&rt, rt.alloc(), false)
}
