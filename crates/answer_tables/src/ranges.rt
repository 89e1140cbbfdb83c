//! All delays with which a request would be accepted.
//!
//! A longer delay may be denied where a shorter one isn't: with it a hop may keep buffer for a later level, and the buffer may be too small for that.
//! What the hops offer changes with the delay only where it reaches the bound of one more level of one of the route's links, so between two
//! of these bounds all that changes is the test at the end, which a longer delay passes, too. So each such stretch of delays is tried at its end, and
//! an end between a delay that is denied and one that is accepted is searched for.
ghost use Rattle.std.specs.Prelude.{◌≡◌, ◌++◌, ◌∷◌, [], ◌+◌, ◌-◌, ◌<◌, ◌≤◌, ℕ, IfOk, OnOk, length};
ghost use Rattle.net_units.specs.Limits.{most_delay};
ghost use Rattle.link_steps.specs.Lists.{Each};
ghost use Rattle.answer_tables.specs.Ranges.{AreAllRanges, AreRangesOf, HasEdge, HasSeen, IsAcross, IsBoundIn, IsLeastOver, IsPartOf, hops_of};

use crate::asked::{AmongRequests, AskedWithin};
use call_script::{BadPlan, Plan};
use hop_reservation::{Hop, Route};
use net_units::limits::MOST_DELAY;
use net_units::{Level, OutOfMemory};
use std::alloc::Global;

/// Delays with which a request would be accepted.
#[derive(Clone, Copy, Debug)]
pub struct Range {
    /// The shortest, in ticks.
    pub first: u64,
    /// The longest, in ticks.
    pub last: u64,
}

// How far the delays have been gone through.
#[derive(Clone, Copy)]
pub(crate) struct Sweep {
    // Up to this delay.
    at: u64,
    // Whether that is accepted.
    accepted: bool,
    // If so, where the range begins that it is in.
    first: u64,
}

// Two delays, of which one is accepted and the other isn't.
#[derive(Clone, Copy)]
pub(crate) struct Across {
    low: u64,
    high: u64,
    // Whether the shorter one is the one that is accepted.
    accepted: bool,
}

/// All delays with which the request of a number would be accepted, in its place among the others: ranges in rising order, with delays between
/// them that are denied. There is none where it is denied with any delay.
pub fn delay_ranges(alloc: Global, plan: &Plan, number: usize) -> Result<Vec<Range>, BadPlan>
    requires inside { number < length plan.now.requests }
    ensures { IfOk result (λ ranges. AreAllRanges plan.now number ranges.items) }
{
    ranges_asked(alloc, plan, number, &AmongRequests)
}

/// The same of a request that is asked elsewhere.
pub fn ranges_asked<F: From<OutOfMemory>, A: AskedWithin<F>>(
    alloc: Global,
    plan: &Plan,
    number: usize,
    asked: &A,
) -> Result<Vec<Range>, F>
    requires inside { number < length plan.now.requests }
    ensures { IfOk result (λ ranges. AreRangesOf (A.gives asked.now plan.now number) (hops_of plan.now number) ranges.items) }
{
    let mut ranges = Vec::new(alloc);
    let mut sweep = Sweep {
        at: 0,
        accepted: false,
        first: 0,
    };
    while sweep.at < MOST_DELAY {
        sweep = step(alloc, plan, number, asked, &mut ranges, sweep)?;
    }
    if sweep.accepted {
        let range = Range {
            first: sweep.first,
            last: MOST_DELAY,
        };
        add(&mut ranges, range)?;
    }
    Ok(ranges)
}

// Goes on to the next delay at which anything may change.
fn step<F: From<OutOfMemory>, A: AskedWithin<F>>(
    alloc: Global,
    plan: &Plan,
    number: usize,
    asked: &A,
    ranges: &mut Vec<Range>,
    sweep: Sweep,
) -> Result<Sweep, F>
    requires inside { number < length plan.now.requests }
    requires more { sweep.at < most_delay }
    requires seen { HasSeen (A.gives asked.now plan.now number) (hops_of plan.now number) ranges.old.items sweep }
    ensures seen { IfOk result (λ next. HasSeen (A.gives asked.now plan.now number) (hops_of plan.now number) ranges.new.items next) }
    ensures further { IfOk result (λ next. sweep.at < next.at) }
{
    let at = next_after(&plan.requests()[number].request.route, sweep);
    let accepted = asked.is_accepted(alloc, plan, number, at)?;
    if accepted == sweep.accepted {
        return Ok(Sweep {
            at,
            accepted,
            first: sweep.first,
        });
    }
    let across = Across {
        low: sweep.at,
        high: at,
        accepted: sweep.accepted,
    };
    let edge = edge_near(alloc, plan, number, asked, across)?;
    if accepted {
        return Ok(Sweep {
            at,
            accepted,
            first: edge + 1,
        });
    }
    let range = Range {
        first: sweep.first,
        last: edge,
    };
    add(ranges, range)?;
    Ok(Sweep {
        at,
        accepted,
        first: 0,
    })
}

// Adds a range after the others.
fn add(ranges: &mut Vec<Range>, range: Range) -> Result<(), OutOfMemory>
    ensures { OnOk result (ranges.new.items ≡ ranges.old.items ++ range ∷ []) }
{
    ranges.push(range)?;
    Ok(())
}

// ---- where anything may change

// The next delay to try: the last before a bound of the route's links or, right after such a one that is accepted, that bound.
fn next_after(route: &Route, sweep: Sweep) -> u64
    requires more { sweep.at < most_delay }
    ensures further { sweep.at < result }
    ensures most { result ≤ most_delay }
    ensures next { (bound : ℕ) → IsBoundIn route.now bound → sweep.at + 1 < bound → result + 1 ≤ bound }
{
    if sweep.accepted && bound_over(route, sweep.at) == sweep.at + 1 {
        return sweep.at + 1;
    }
    bound_over(route, sweep.at + 1) - 1
}

// The least bound over this number of ticks; the longest delay and a tick where there is none.
fn bound_over(route: &Route, ticks: u64) -> u64
    requires most { ticks ≤ most_delay }
    ensures over { ticks < result }
    ensures most { result ≤ most_delay + 1 }
    ensures least { Each (IsLeastOver ticks result) route.now }
{
    let mut least = MOST_DELAY + 1;
    for index in 0..route.len() {
        least = bound_at_hop(&route.hop(index + 1), ticks, least);
    }
    least
}

// The least of a hop's bounds over this number of ticks, and of another one.
fn bound_at_hop(hop: &Hop, ticks: u64, other: u64) -> u64
    requires over { ticks < other }
    ensures over { ticks < result }
    ensures most { result ≤ other }
    ensures least { IsLeastOver ticks result hop.now }
{
    let mut least = other;
    for index in 0..hop.bounds.len() {
        let bound = u64::from(hop.bounds.at(Level::new(index + 1).unwrap()));
        if ticks < bound && bound < least {
            least = bound;
        }
    }
    least
}

// ---- the end of a range

// The last delay before the one in which the verdict changes. It is looked for first where the sum of the offers lies.
fn edge_near<F, A: AskedWithin<F>>(
    alloc: Global,
    plan: &Plan,
    number: usize,
    asked: &A,
    across: Across,
) -> Result<u64, F>
    requires inside { number < length plan.now.requests }
    requires across { IsAcross (A.gives asked.now plan.now number) across }
    ensures { IfOk result (HasEdge (A.gives asked.now plan.now number) across) }
{
    let near = asked.sum_offered(alloc, plan, number, across.high)?;
    let left = cut_at(alloc, plan, number, asked, across, near.saturating_sub(1))?;
    let left = cut_at(alloc, plan, number, asked, left, near)?;
    let edge = edge_of(alloc, plan, number, asked, left)?;
    Ok(edge)
}

// The same, by binary search.
fn edge_of<F, A: AskedWithin<F>>(
    alloc: Global,
    plan: &Plan,
    number: usize,
    asked: &A,
    across: Across,
) -> Result<u64, F>
    requires inside { number < length plan.now.requests }
    requires across { IsAcross (A.gives asked.now plan.now number) across }
    ensures { IfOk result (HasEdge (A.gives asked.now plan.now number) across) }
{
    let mut left = across;
    while left.high - left.low > 1 {
        left = cut_at(
            alloc,
            plan,
            number,
            asked,
            left,
            left.low + (left.high - left.low) / 2,
        )?;
    }
    Ok(left.low)
}

// What is left of two delays once one between them is tried; both, where it isn't between them.
fn cut_at<F, A: AskedWithin<F>>(
    alloc: Global,
    plan: &Plan,
    number: usize,
    asked: &A,
    across: Across,
    delay: u64,
) -> Result<Across, F>
    requires inside { number < length plan.now.requests }
    requires across { IsAcross (A.gives asked.now plan.now number) across }
    ensures across { IfOk result (IsAcross (A.gives asked.now plan.now number)) }
    ensures part { IfOk result (IsPartOf across) }
    ensures less { across.low < delay → delay < across.high → IfOk result (λ part. part.high - part.low < across.high - across.low) }
{
    if delay <= across.low || across.high <= delay {
        return Ok(across);
    }
    let accepted = asked.is_accepted(alloc, plan, number, delay)?;
    if accepted == across.accepted {
        Ok(Across {
            low: delay,
            high: across.high,
            accepted,
        })
    } else {
        Ok(Across {
            low: across.low,
            high: delay,
            accepted: across.accepted,
        })
    }
}
