//! With what delay, or with what jitter, a request would be accepted where it is asked at a point of a schedule.
ghost use Rattle.std.specs.Prelude.{◌≡◌, ◌+◌, ◌-◌, ◌<◌, IfOk, length};
ghost use Rattle.setup_protocol.specs.State.{outcome_of};
ghost use Rattle.setup_points.specs.Least.{Gives, IsLeastAt, IsTried, LiesBetween, change_for};

use crate::asked::asked_at;
use crate::fault::PointFault;
use call_script::{Do, Plan};
use net_units::limits::MOST_DELAY;
use question_plans::Change;
use setup_protocol::Verdict;
use std::alloc::Global;

/// What is sought the least of.
#[derive(Clone, Copy, Debug, PartialEq, Eq)]
pub enum Sought {
    /// The delay that is wanted.
    Delay,
    /// The jitter that is wanted; the request's jitter is controlled then.
    Jitter,
}

/// A question at a point of a schedule: after `start` of its steps the request of this number is asked.
#[derive(Clone, Copy, Debug)]
pub struct Question {
    pub start: usize,
    pub number: usize,
    pub sought: Sought,
}

/// The least with which a request would be accepted.
#[derive(Clone, Copy, Debug)]
pub enum LeastAt {
    /// With so many ticks, and not with one less.
    Ticks(u64),
    /// Not even with the most that a request may ask for. With that it comes to this.
    Refused(Verdict),
}

/// With what delay, or with what jitter, the request would be accepted. One that lies near it is tried first; whatever it is, the
/// answer is the same wherever the request is accepted with all that is more than one with which it is accepted.
pub fn least_at(
    alloc: Global,
    plan: &Plan,
    items: &[Do],
    question: Question,
    near: u64,
) -> Result<LeastAt, PointFault>
    requires inside { question.number < length plan.now.requests }
    ensures { IfOk result (IsLeastAt plan.now items.now question) }
{
    if near < 2 || !is_accepted_with(alloc, plan, items, question, near)? {
        return least_of_all(alloc, plan, items, question);
    }
    if is_accepted_with(alloc, plan, items, question, near - 1)? {
        return least_of_all(alloc, plan, items, question);
    }
    Ok(LeastAt::Ticks(near))
}

// Whether it is accepted with so many ticks.
pub(crate) fn is_accepted_with(
    alloc: Global,
    plan: &Plan,
    items: &[Do],
    question: Question,
    ticks: u64,
) -> Result<bool, PointFault>
    requires inside { question.number < length plan.now.requests }
    ensures { IfOk result (Gives plan.now items.now question ticks) }
{
    let verdict = verdict_with(alloc, plan, items, question, ticks)?;
    Ok(verdict.is_accepted())
}

// Numbers of ticks between which the answer lies.
#[derive(Clone, Copy)]
pub(crate) struct Between {
    denied: u64,
    accepted: u64,
}

// The answer, among all that may be asked for.
fn least_of_all(
    alloc: Global,
    plan: &Plan,
    items: &[Do],
    question: Question,
) -> Result<LeastAt, PointFault>
    requires inside { question.number < length plan.now.requests }
    ensures { IfOk result (IsLeastAt plan.now items.now question) }
{
    let verdict = verdict_with(alloc, plan, items, question, MOST_DELAY)?;
    if !verdict.is_accepted() {
        return Ok(LeastAt::Refused(verdict));
    }
    let between = Between {
        denied: 0,
        accepted: MOST_DELAY,
    };
    least_between(alloc, plan, items, question, between)
}

// The answer between two numbers of ticks.
fn least_between(
    alloc: Global,
    plan: &Plan,
    items: &[Do],
    question: Question,
    between: Between,
) -> Result<LeastAt, PointFault>
    requires inside { question.number < length plan.now.requests }
    requires between { LiesBetween plan.now items.now question between }
    ensures { IfOk result (IsLeastAt plan.now items.now question) }
{
    let mut left = between;
    while left.accepted - left.denied > 1 {
        left = halved(alloc, plan, items, question, left)?;
    }
    Ok(LeastAt::Ticks(left.accepted))
}

// What is left of these once the one in their middle is tried.
fn halved(
    alloc: Global,
    plan: &Plan,
    items: &[Do],
    question: Question,
    between: Between,
) -> Result<Between, PointFault>
    requires inside { question.number < length plan.now.requests }
    requires between { LiesBetween plan.now items.now question between }
    requires apart { between.denied + 1 < between.accepted }
    ensures between { IfOk result (LiesBetween plan.now items.now question) }
    ensures less { IfOk result (λ left. left.accepted - left.denied < between.accepted - between.denied) }
{
    let middle = between.denied + (between.accepted - between.denied) / 2;
    if is_accepted_with(alloc, plan, items, question, middle)? {
        Ok(Between {
            denied: between.denied,
            accepted: middle,
        })
    } else {
        Ok(Between {
            denied: middle,
            accepted: between.accepted,
        })
    }
}

// What it comes to with so many ticks.
fn verdict_with(
    alloc: Global,
    plan: &Plan,
    items: &[Do],
    question: Question,
    ticks: u64,
) -> Result<Verdict, PointFault>
    requires inside { question.number < length plan.now.requests }
    ensures { IfOk result (λ verdict. IsTried plan.now items.now question ticks (outcome_of verdict)) }
{
    let change = change_for(question, ticks);
    let decided = asked_at(alloc, plan, items, question.start, &change, question.number)?;
    Ok(decided.verdict)
}

// The change by which the request wants so many ticks.
fn change_for(question: Question, ticks: u64) -> Change
    ensures { result ≡ change_for question.sought question.number ticks }
{
    let number = question.number;
    match question.sought {
        Sought::Delay => Change::Delay {
            number,
            delay: ticks,
        },
        Sought::Jitter => Change::Jitter {
            number,
            jitter: ticks,
        },
    }
}
