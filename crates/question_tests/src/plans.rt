//! Plans of questions, worked out by hand from plans over one link.
use super::points::{CLOSING, SPLIT, read};
use crate::due::is_due;
use call_script::{BadPlan, CallerEntry, Op, Plan, RequestEntry};
use one_link_plans::{moved, opened};
use question_plans::{Change, requests_alone, with_change, with_more, with_more_after};
use setup_protocol::Control;
use std::test::Fail;

// The channels that a caller opens, where it does nothing else.
fn opens_only(caller: &CallerEntry, channels: &[u32]) -> bool {
    let ops = caller.ops.as_slice();
    if ops.len() != channels.len() {
        return false;
    }
    ops.iter()
        .zip(channels)
        .all(|(op, chan)| is_open_of(op, *chan))
}

// Whether an operation opens the channel of this number.
fn is_open_of(op: &Op, number: u32) -> bool {
    match op {
        Op::Open(chan) => chan.get() == number,
        _ => false,
    }
}

// Whether a request is of this name and channel, for this delay, without a bound on its jitter, and over one link.
fn is_asked(entry: &RequestEntry, name: &[u8], chan: u32, delay: u64) -> bool {
    let request = &entry.request;
    entry.name.as_bytes() == name
        && request.chan.get() == chan
        && request.delay == delay
        && request.control == Control::Rate
        && request.route.len() == 1
}

// The rule that a plan breaks: None where there is a plan.
fn broken_rule(made: &Result<Plan, BadPlan>) -> Option<u8> {
    match made {
        Err(BadPlan::Broken { rule }) => Some(*rule),
        _ => None,
    }
}

// The caller opens two requests, sends on the first and moves its packets to the second, over 40 rounds.
#[test]
fn requests_alone_are_opened(rt: HostRuntime) -> Result<(), Fail> {
    let alloc = rt.alloc();
    let plan = moved(alloc, 14)?;
    let change = Change::Delay {
        number: 1,
        delay: 77,
    };
    let alone = requests_alone(alloc, &plan, &change)?;
    is_due(&rt, alone.rounds(), 0);
    assert_eq!(rt; alone.links().len(), 1);
    let first = alone.requests().get(0).ok_or("first")?;
    let second = alone.requests().get(1).ok_or("second")?;
    assert!(rt; is_asked(first, b"r1", 0, 12));
    assert!(rt; is_asked(second, b"r2", 1, 77));
    let caller = alone.callers().get(0).ok_or("caller")?;
    assert!(rt; opens_only(caller, &[0, 1]));
    Ok(())
}

#[test]
fn a_jitter_is_wanted_of_one(rt: HostRuntime) -> Result<(), Fail> {
    let alloc = rt.alloc();
    let plan = moved(alloc, 14)?;
    let change = Change::Jitter {
        number: 0,
        jitter: 9,
    };
    let alone = requests_alone(alloc, &plan, &change)?;
    let first = alone.requests().get(0).ok_or("first")?;
    let second = alone.requests().get(1).ok_or("second")?;
    is_due(&rt, first.request.control, Control::Jitter(9));
    is_due(&rt, second.request.control, Control::Rate);
    Ok(())
}

#[test]
fn copies_come_after_all_others(rt: HostRuntime) -> Result<(), Fail> {
    let alloc = rt.alloc();
    let plan = moved(alloc, 14)?;
    assert_eq!(rt; plan.requests().len(), 2);
    let more = with_more(alloc, &plan, 1, 3)?;
    assert_eq!(rt; more.requests().len(), 5);
    let own = more.requests().get(1).ok_or("own")?;
    let copy = more.requests().get(4).ok_or("copy")?;
    assert!(rt; is_asked(own, b"r2", 1, 14));
    assert!(rt; is_asked(copy, b"ask0_00002", 4, 14));
    assert_eq!(rt; more.callers().len(), 2);
    let opener = more.callers().get(1).ok_or("opener")?;
    is_due(&rt, opener.name.as_bytes(), b"ask0_00000".as_slice());
    assert!(rt; opens_only(opener, &[2, 3, 4]));
    Ok(())
}

// A delay is at least a tick, and a plan has at most 1,024 requests.
#[test]
fn a_plan_that_breaks_a_rule_is_refused(rt: HostRuntime) -> Result<(), Fail> {
    let alloc = rt.alloc();
    let plan = opened(alloc, 40)?;
    let change = Change::Delay {
        number: 0,
        delay: 0,
    };
    let alone = requests_alone(alloc, &plan, &change);
    is_due(&rt, broken_rule(&alone), Some(8));
    assert_eq!(rt; plan.requests().len(), 1);
    let most = with_more(alloc, &plan, 0, 1_023);
    assert!(rt; most.is_ok());
    let more = with_more(alloc, &plan, 0, 1_024);
    is_due(&rt, broken_rule(&more), Some(9));
    Ok(())
}

// Of the plan nothing changes but the delay: the caller sends and moves as before, over 40 rounds.
#[test]
fn all_else_is_kept(rt: HostRuntime) -> Result<(), Fail> {
    let alloc = rt.alloc();
    let plan = moved(alloc, 14)?;
    let change = Change::Delay {
        number: 1,
        delay: 77,
    };
    let made = with_change(alloc, &plan, &change)?;
    is_due(&rt, made.rounds(), 40);
    let first = made.requests().get(0).ok_or("first")?;
    let second = made.requests().get(1).ok_or("second")?;
    assert!(rt; is_asked(first, b"r1", 0, 12));
    assert!(rt; is_asked(second, b"r2", 1, 77));
    let caller = made.callers().get(0).ok_or("caller")?;
    assert_eq!(rt; caller.ops.as_slice().len(), 4);
    Ok(())
}

#[test]
fn copies_come_after_all_that_is_done(rt: HostRuntime) -> Result<(), Fail> {
    let alloc = rt.alloc();
    let plan = moved(alloc, 14)?;
    assert_eq!(rt; plan.requests().len(), 2);
    let more = with_more_after(alloc, &plan, 1, 2)?;
    is_due(&rt, more.rounds(), 40);
    assert_eq!(rt; more.requests().len(), 4);
    let copy = more.requests().get(3).ok_or("copy")?;
    assert!(rt; is_asked(copy, b"ask0_00001", 3, 14));
    let caller = more.callers().get(0).ok_or("caller")?;
    assert_eq!(rt; caller.ops.as_slice().len(), 4);
    let opener = more.callers().get(1).ok_or("opener")?;
    assert!(rt; opens_only(opener, &[2, 3]));
    Ok(())
}

// The caller opens a request, sends on it and closes it.
#[test]
fn no_request_is_closed(rt: HostRuntime) -> Result<(), Fail> {
    let alloc = rt.alloc();
    let (plan, _schedule) = read(alloc, CLOSING)?;
    let alone = requests_alone(alloc, &plan, &Change::Nothing)?;
    let caller = alone.callers().get(0).ok_or("caller")?;
    assert!(rt; opens_only(caller, &[0]));
    Ok(())
}

// The fifth request is of the second group.
#[test]
fn copies_have_the_group_of_their_request(rt: HostRuntime) -> Result<(), Fail> {
    let alloc = rt.alloc();
    let (plan, _schedule) = read(alloc, SPLIT)?;
    assert_eq!(rt; plan.requests().len(), 6);
    let more = with_more(alloc, &plan, 4, 1)?;
    let own = plan.callers().get(1).ok_or("own")?;
    let opener = more.callers().get(2).ok_or("opener")?;
    is_due(&rt, own.group, 2);
    is_due(&rt, opener.group, 2);
    Ok(())
}
