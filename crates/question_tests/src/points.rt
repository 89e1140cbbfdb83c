//! Questions at points of scheduled runs, worked out by hand.
//!
//! A channel sends at most 4 units in any 10 ticks or 20, and 8 in any 40; the largest packet on a link takes 4 ticks. So level 1, of 10 ticks,
//! holds one channel (4 + 4), and a second one there is offered level 2, of 20 ticks.
ghost use Rattle.std.specs.Prelude.{◌≡◌};

use crate::due::is_due;
use answer_tables::{LeastJitter, NextTogether, RoomTogether};
use byte_ends::SureSource;
use call_script::{Plan, Schedule};
use link_steps::Refusal;
use net_units::Level;
use net_units::limits::MOST_DELAY;
use plan_answers::Least;
use question_plans::{Change, with_change};
use relaxation::EndDenial;
use scenario_reader::read_plan;
use setup_points::{
    LeastAt, PointFault, Question, ScheduledRun, Sought, asked_at, items_until, least_at,
    ranges_at, room_after, row_at,
};
use setup_protocol::{Deny, Verdict};
use std::alloc::Global;
use std::test::Fail;

// The channel r1 is held on all three links when the setup of r2 begins there, and is closed before that of r3 comes to each.
pub(super) const CLOSING: &str = "\
tenet 1
link A n1 n2 rate 1 cap 4 prop 2 buffer 100 levels 10 20 40
link B n2 n3 rate 1 cap 4 prop 2 buffer 100 levels 10 20 40
link C n3 n4 rate 1 cap 4 prop 2 buffer 100 levels 10 20 40
caller k1
open r1 route A B C contract 5 10 20 2 delay 36 jitter 10
send r1 5 10 2
close r1
caller k2
open r2 route A B C contract 5 10 20 2 delay 36 jitter 10
open r3 route A B C contract 5 10 20 2 delay 36 jitter 10
rounds 100
tail 0
schedule
do k1 7
do plane 66
do k2 1
do k1 3
do k2 5
do plane 195
do k2 6
do plane 45
";

// Two groups share the link. At level 3, of 40 ticks, a channel brings 8 ticks of work, and the others of its group 16.
pub(super) const SPLIT: &str = "\
tenet 5
link A n1 n2 rate 1 cap 4 prop 2 buffer 100 levels 10 20 40
group g1
group g2
quota A g1 buffer 50 levels 4 8 20
quota A g2 buffer 50 levels 2 8 16
caller k1 group g1
open r1 route A contract 5 10 20 2 delay 12 rate
open r2 route A contract 5 10 20 2 delay 22 rate
open r3 route A contract 5 10 20 2 delay 100 rate
caller k2 group g2
open r4 route A contract 5 10 20 2 delay 22 rate
open r5 route A contract 5 10 20 2 delay 22 rate
open r6 route A contract 5 10 20 2 delay 100 rate
rounds 1
tail 0
schedule
do k1 4
do k2 5
do k1 1
do plane 1
";

// The plan and the schedule of a scenario.
pub(super) fn read(alloc: Global, text: &str) -> Result<(Plan, Schedule), Fail> {
    let bytes = Vec::from_slice(alloc, text.as_bytes())?;
    let mut source = SureSource::new(bytes, 4_096);
    match read_plan(alloc, &mut source) {
        Ok(both) => Ok(both),
        Err(_) => Err(Fail::from("a scenario that is refused")),
    }
}

// Whether these are the levels.
fn are(levels: &[Level], numbers: &[u8]) -> bool {
    levels.len() == numbers.len()
        && levels
            .iter()
            .zip(numbers)
            .all(|(level, number)| level.get() == *number)
}

// The sum and the bound by which the destination denies a delay.
fn late(verdict: &Verdict) -> Option<(u64, u64)> {
    match verdict {
        Verdict::Denied(Deny::End(EndDenial::Delay { sum, bound })) => Some((*sum, *bound)),
        _ => None,
    }
}

// The number of the request of which the first copy is refused.
fn refused(room: &RoomTogether) -> Option<usize> {
    match &room.next {
        NextTogether::Refused { number, .. } => Some(*number),
        NextTogether::Full => None,
    }
}

// By what sum and bound it is late.
fn late_in(room: &RoomTogether) -> Option<(u64, u64)> {
    match &room.next {
        NextTogether::Refused { verdict, .. } => match verdict {
            Some(verdict) => late(verdict),
            None => None,
        },
        NextTogether::Full => None,
    }
}

// By what sum and bound its first hop has no level.
fn full_in(room: &RoomTogether) -> Option<(u64, u64)> {
    match &room.next {
        NextTogether::Refused { verdict, .. } => match verdict {
            Some(verdict) => full(verdict),
            None => None,
        },
        NextTogether::Full => None,
    }
}

// The sum and the bound by which the first hop has no level.
fn full(verdict: &Verdict) -> Option<(u64, u64)> {
    match verdict {
        Verdict::Denied(
            Deny::Hop {
                hop: 1,
                refusal: Refusal::NoLevel { sum, bound },
            },
        ) => Some((*sum, u64::from(*bound))),
        _ => None,
    }
}

// The delay that is promised.
fn promised(verdict: &Verdict) -> Option<u64> {
    match verdict {
        Verdict::Accepted { delay, .. } => Some(*delay),
        Verdict::Denied(_) => None,
    }
}

// The ticks of an answer.
fn ticks_in(least: &LeastAt) -> Option<u64> {
    match least {
        LeastAt::Ticks(ticks) => Some(*ticks),
        LeastAt::Refused(_) => None,
    }
}

// A question after the request of this number, which is asked after so many steps.
fn question(start: usize, number: usize, sought: Sought) -> Question
    ensures { result.number ≡ number }
{
    Question {
        start,
        number,
        sought,
    }
}

#[test]
fn where_setups_begin(rt: HostRuntime) -> Result<(), Fail> {
    let alloc = rt.alloc();
    let (plan, schedule) = read(alloc, CLOSING)?;
    assert_eq!(rt; plan.requests().len(), 3);
    let run = ScheduledRun::play(alloc, &plan, &schedule)?;
    is_due(&rt, run.start_of(&plan, 0), Some(0));
    is_due(&rt, run.start_of(&plan, 1), Some(7 + 66));
    is_due(&rt, run.start_of(&plan, 2), Some(7 + 66 + 1 + 3 + 5 + 195));
    let second = run.verdict(&plan, 1).ok_or("second")?;
    is_due(&rt, late(&second), Some((66, 36)));
    let offers = run.offers(alloc, &plan, 2)?;
    assert!(rt; are(&offers, &[1, 1, 1]));
    Ok(())
}

// Behind 75 steps an item of 66 is cut after 68, and nothing of the rest is left.
#[test]
fn items_up_to_a_step(rt: HostRuntime) -> Result<(), Fail> {
    let alloc = rt.alloc();
    let (_plan, schedule) = read(alloc, CLOSING)?;
    let front = items_until(alloc, schedule.items.as_slice(), 75)?;
    let first = front.get(0).ok_or("first")?;
    is_due(&rt, first.count, 7);
    let third = front.get(2).ok_or("third")?;
    is_due(&rt, third.count, 1);
    let fourth = front.get(3).ok_or("fourth")?;
    is_due(&rt, fourth.count, 1);
    let mut steps: u64 = 0;
    for item in &front {
        steps = steps.saturating_add(item.count);
    }
    is_due(&rt, steps, 75);
    Ok(())
}

// The second finds r1 on each link, so level 2 is offered, three times 20 and 2; the third doesn't, so level 1 is, three times 10 and 2.
#[test]
fn a_request_is_asked_among_those_that_are_held(rt: HostRuntime) -> Result<(), Fail> {
    let alloc = rt.alloc();
    let (plan, schedule) = read(alloc, CLOSING)?;
    let items = schedule.items.as_slice();
    assert_eq!(rt; plan.requests().len(), 3);
    let second = asked_at(alloc, &plan, items, 73, &Change::Nothing, 1)?;
    assert!(rt; are(&second.offers, &[2, 2, 2]));
    is_due(&rt, late(&second.verdict), Some((66, 36)));
    let third = asked_at(alloc, &plan, items, 277, &Change::Nothing, 2)?;
    assert!(rt; are(&third.offers, &[1, 1, 1]));
    is_due(&rt, promised(&third.verdict), Some(36));
    Ok(())
}

// Whatever its jitter, the second is accepted with what it is offered. Its last hop then delays a packet by up to 20 ticks.
#[test]
fn the_least_at_a_point(rt: HostRuntime) -> Result<(), Fail> {
    let alloc = rt.alloc();
    let (plan, schedule) = read(alloc, CLOSING)?;
    let items = schedule.items.as_slice();
    let loosened = Change::Jitter {
        number: 1,
        jitter: MOST_DELAY,
    };
    let loose = with_change(alloc, &plan, &loosened)?;
    assert_eq!(rt; loose.requests().len(), 3);
    let delay = question(73, 1, Sought::Delay);
    let near = least_at(alloc, &loose, items, delay, 66)?;
    is_due(&rt, ticks_in(&near), Some(66));
    let far = least_at(alloc, &loose, items, delay, 0)?;
    is_due(&rt, ticks_in(&far), Some(66));
    let shortened = Change::Delay {
        number: 1,
        delay: 66,
    };
    let short = with_change(alloc, &plan, &shortened)?;
    assert_eq!(rt; short.requests().len(), 3);
    let jitter = least_at(alloc, &short, items, question(73, 1, Sought::Jitter), 20)?;
    is_due(&rt, ticks_in(&jitter), Some(20));
    Ok(())
}

// With a jitter of 10 no delay will do, since the last hop offers 20.
#[test]
fn no_delay_will_do(rt: HostRuntime) -> Result<(), Fail> {
    let alloc = rt.alloc();
    let (plan, schedule) = read(alloc, CLOSING)?;
    assert_eq!(rt; plan.requests().len(), 3);
    let delay = question(73, 1, Sought::Delay);
    let least = least_at(alloc, &plan, schedule.items.as_slice(), delay, 66)?;
    assert!(rt;
        matches!(
            least,
            LeastAt::Refused(Verdict::Denied(Deny::End(EndDenial::Jitter {
                last: 20,
                bound: 10
            })))
        )
    );
    Ok(())
}

// The third of a group brings 8 ticks of work into 16, of which its quota has room for 20 or 16. Its caller has no other step than this one.
#[test]
fn each_group_is_asked_within_its_share(rt: HostRuntime) -> Result<(), Fail> {
    let alloc = rt.alloc();
    let (plan, schedule) = read(alloc, SPLIT)?;
    let items = schedule.items.as_slice();
    assert_eq!(rt; plan.requests().len(), 6);
    let run = ScheduledRun::play(alloc, &plan, &schedule)?;
    is_due(&rt, run.start_of(&plan, 2), Some(9));
    is_due(&rt, run.start_of(&plan, 5), Some(8));
    let third = asked_at(alloc, &plan, items, 9, &Change::Nothing, 2)?;
    is_due(&rt, full(&third.verdict), Some((24, 20)));
    let sixth = asked_at(alloc, &plan, items, 8, &Change::Nothing, 5)?;
    is_due(&rt, full(&sixth.verdict), Some((24, 16)));
    Ok(())
}

// At the end r3 is held. A copy of it is offered level 2 on each link.
#[test]
fn no_room_at_the_end(rt: HostRuntime) -> Result<(), Fail> {
    let alloc = rt.alloc();
    let (plan, schedule) = read(alloc, CLOSING)?;
    assert_eq!(rt; plan.requests().len(), 3);
    let room = room_after(alloc, &plan, schedule.items.as_slice(), &[2])?;
    is_due(&rt, room.count, 0);
    is_due(&rt, refused(&room), Some(2));
    is_due(&rt, late_in(&room), Some((66, 36)));
    Ok(())
}

// A schedule may ask for a step that isn't left, and a setup may not begin where a question says.
#[test]
fn faults_are_told(rt: HostRuntime) -> Result<(), Fail> {
    let alloc = rt.alloc();
    let (plan, schedule) = read(alloc, SPLIT)?;
    let items = schedule.items.as_slice();
    assert_eq!(rt; plan.requests().len(), 6);
    let early = asked_at(alloc, &plan, items, 0, &Change::Nothing, 2);
    assert!(rt; matches!(early, Err(PointFault::Undecided)));
    let change = Change::Delay {
        number: 2,
        delay: 0,
    };
    let none = asked_at(alloc, &plan, items, 9, &change, 2);
    assert!(rt; matches!(none, Err(PointFault::Rule { rule: 8 })));
    Ok(())
}

// Once two of the first group and two of the second are there, a third of each group would bring its share to 24 ticks, of which the first has 20.
// Once the first of the second group is there alone, its quota has room for one more.
#[test]
fn room_for_two_groups(rt: HostRuntime) -> Result<(), Fail> {
    let alloc = rt.alloc();
    let (plan, schedule) = read(alloc, SPLIT)?;
    let run = ScheduledRun::play(alloc, &plan, &schedule)?;
    let items = schedule.items.as_slice();
    assert_eq!(rt; plan.requests().len(), 6);
    is_due(&rt, run.end_of(&plan, 1), Some(4));
    is_due(&rt, run.end_of(&plan, 3), Some(6));
    is_due(&rt, run.end_of_all(&plan, &[3, 1]), 6);
    let front = items_until(alloc, items, 6)?;
    let room = room_after(alloc, &plan, front.as_slice(), &[4, 2])?;
    is_due(&rt, room.count, 0);
    is_due(&rt, refused(&room), Some(2));
    is_due(&rt, full_in(&room), Some((24, 20)));
    let alone = room_after(alloc, &plan, front.as_slice(), &[4])?;
    is_due(&rt, alone.count, 1);
    Ok(())
}

// The second of CLOSING could have 66 ticks, and a jitter of 20, where its setup begins; a longer delay would do, too.
#[test]
fn a_row_at_a_point(rt: HostRuntime) -> Result<(), Fail> {
    let alloc = rt.alloc();
    let (plan, schedule) = read(alloc, CLOSING)?;
    let run = ScheduledRun::play(alloc, &plan, &schedule)?;
    let items = schedule.items.as_slice();
    assert_eq!(rt; plan.requests().len(), 3);
    let row = row_at(alloc, &plan, items, &run, 1)?;
    assert!(rt; matches!(row.least, Least::Delay(66)));
    assert!(rt; matches!(row.jitter, LeastJitter::Jitter(20)));
    let loosened = Change::Jitter {
        number: 1,
        jitter: MOST_DELAY,
    };
    let loose = with_change(alloc, &plan, &loosened)?;
    assert_eq!(rt; loose.requests().len(), 3);
    let ranges = ranges_at(alloc, &loose, items, 73, 1)?;
    assert_eq!(rt; ranges.len(), 1);
    let range = ranges.get(0).ok_or("range")?;
    is_due(&rt, range.first, 66);
    is_due(&rt, range.last, MOST_DELAY);
    Ok(())
}
