//! Rows of two requests over one link, the room for more of them, and all delays with which a request is accepted, worked out by hand.
//!
//! The link has levels of 10, 20 and 40 ticks and a propagation of 2. The first request is offered level 1, so 12 ticks, and the second level
//! 2, so 22. The last hop's bound is the least jitter. With two more like the second the link has four channels, which is all that it holds.
use crate::due::is_due;
use answer_tables::{
    LeastJitter, NextTogether, Range, RequestRow, delay_ranges, request_row, room_together,
};
use call_script::BadPlan;
use net_units::limits::MOST_DELAY;
use one_link_plans::moved;
use plan_answers::{Least, Trial};
use question_plans::{Change, requests_alone};
use std::alloc::Global;
use std::test::Fail;

// The least delay and the least jitter of a row.
fn least_of(row: &RequestRow) -> (Option<u64>, Option<u64>) {
    let delay = match &row.least {
        Least::Delay(delay) => Some(*delay),
        Least::Refused(_) => None,
    };
    let jitter = match &row.jitter {
        LeastJitter::Jitter(jitter) => Some(*jitter),
        LeastJitter::Refused(_) => None,
    };
    (delay, jitter)
}

// The request of which the first copy that isn't accepted is one.
fn refused_in(next: &NextTogether) -> Option<usize> {
    match next {
        NextTogether::Refused { number, .. } => Some(*number),
        NextTogether::Full => None,
    }
}

#[test]
fn the_rows_of_two_requests(rt: HostRuntime) -> Result<(), Fail> {
    let alloc = rt.alloc();
    let plan = moved(alloc, 42)?;
    assert_eq!(rt; plan.requests().len(), 2);
    let trial = Trial::play(alloc, requests_alone(alloc, &plan, &Change::Nothing)?)?;
    assert_eq!(rt; trial.plan.requests().len(), 2);
    let first = request_row(alloc, &plan, &trial, 0)?;
    let second = request_row(alloc, &plan, &trial, 1)?;
    is_due(&rt, first.offered(), Some(12));
    is_due(&rt, second.offered(), Some(22));
    is_due(&rt, second.tight(), Some(0));
    is_due(&rt, least_of(&first), (Some(12), Some(10)));
    is_due(&rt, least_of(&second), (Some(22), Some(20)));
    Ok(())
}

#[test]
fn room_for_two_more_of_one(rt: HostRuntime) -> Result<(), Fail> {
    let alloc = rt.alloc();
    let plan = moved(alloc, 42)?;
    let room = room_together(alloc, &plan, &[1])?;
    is_due(&rt, room.count, 2);
    is_due(&rt, refused_in(&room.next), Some(1));
    Ok(())
}

// As many copies of the second request as of the first, first all of the first. With two of each, the second copy of the first has the link's
// last place in level 1 or 2, and so on.
#[test]
fn room_for_one_more_of_both(rt: HostRuntime) -> Result<(), Fail> {
    let alloc = rt.alloc();
    let plan = moved(alloc, 42)?;
    let room = room_together(alloc, &plan, &[1, 1])?;
    is_due(&rt, room.count, 1);
    is_due(&rt, refused_in(&room.next), Some(1));
    Ok(())
}

#[test]
fn no_room_for_none(rt: HostRuntime) -> Result<(), Fail> {
    let alloc = rt.alloc();
    let plan = moved(alloc, 42)?;
    assert!(rt; is_refused(&room_together(alloc, &plan, &[])));
    assert!(rt; is_refused(&room_together(alloc, &plan, &[0, 2])));
    Ok(())
}

// Whether the answer is that a number is of no request.
fn is_refused<T>(answer: &Result<T, BadPlan>) -> bool {
    matches!(answer, Err(BadPlan::Broken { rule: 7 }))
}

// The first and the last delay of each range.
fn ends_of(rt: HostRuntime, ranges: &[Range]) -> Result<Vec<(u64, u64)>, Fail> {
    let mut ends = Vec::new(rt.alloc());
    for range in ranges {
        ends.push((range.first, range.last))?;
    }
    Ok(ends)
}

#[test]
fn each_longer_delay_is_accepted(rt: HostRuntime) -> Result<(), Fail> {
    let alloc = rt.alloc();
    let plan = moved(alloc, 42)?;
    assert_eq!(rt; plan.requests().len(), 2);
    let ranges = delay_ranges(alloc, &plan, 1)?;
    let ends = ends_of(rt, ranges.as_slice())?;
    is_due(&rt, ends.as_slice(), [(22, MOST_DELAY)].as_slice());
    Ok(())
}
