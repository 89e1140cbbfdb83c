//! How many more requests like one of a plan's there is room for.
ghost use Rattle.std.specs.Prelude.{◌≡◌, ◌+◌, ◌-◌, ◌<◌, IfOk, length};
ghost use Rattle.plan_answers.specs.Rooms.{IsRoom, IsTriedWith, LiesBetween, refused_from, refused_in};
ghost use Rattle.plan_answers.specs.declared.fit.Next.TheVariants.{Full};
ghost use Rattle.plan_answers.specs.Trials.{IsTrial, run_in};

use crate::trial::{Trial, is_acceptance};
use call_script::{BadPlan, Plan};
use net_units::limits::MOST_REQUESTS;
use question_plans::with_more;
use setup_protocol::Verdict;
use std::alloc::Global;

// What trying some more requests comes to.
#[derive(Clone, Copy)]
pub(crate) enum Tried {
    // All of them are accepted.
    Accepted,
    // The first that isn't comes to this.
    Refused(Option<Verdict>),
}

/// Why there is no room for one more.
#[derive(Clone, Copy, Debug)]
pub enum Next {
    /// The first that isn't accepted comes to this: None where its setup doesn't end.
    Refused(Option<Verdict>),
    /// A plan has no more requests.
    Full,
}

/// How many more requests like one of a plan's there is room for.
#[derive(Clone, Copy, Debug)]
pub struct Room {
    /// That many are accepted after the plan's own requests.
    pub count: usize,
    /// Why one more isn't.
    pub next: Next,
}

// Numbers between which the answer lies: this many more are all accepted, and of that many more the first that isn't comes to `why`.
#[derive(Clone, Copy)]
pub(crate) struct Between {
    accepted: usize,
    refused: usize,
    why: Option<Verdict>,
}

/// How many more requests like that of a number are accepted after the plan's own, all of them opened by one more caller of
/// its group. An `Err` comes for want of memory, or where the plan has no room for a caller more.
pub fn room_for(alloc: Global, plan: &Plan, number: usize) -> Result<Room, BadPlan>
    requires inside { number < length plan.now.requests }
    ensures { IfOk result (IsRoom plan.now number) }
{
    let most = MOST_REQUESTS.saturating_sub(plan.requests().len());
    if most == 0 {
        return Ok(full(most));
    }
    match tried_with(alloc, plan, number, most)? {
        Tried::Accepted => Ok(full(most)),
        Tried::Refused(why) => {
            let between = Between {
                accepted: 0,
                refused: most,
                why,
            };
            room_between(alloc, plan, number, between)
        }
    }
}

// Room for all requests that a plan may have.
fn full(count: usize) -> Room
    ensures { result ≡ record { count = count; next = Full } }
{
    Room {
        count,
        next: Next::Full,
    }
}

// The room between two numbers.
fn room_between(
    alloc: Global,
    plan: &Plan,
    number: usize,
    between: Between,
) -> Result<Room, BadPlan>
    requires inside { number < length plan.now.requests }
    requires between { LiesBetween plan.now number between }
    ensures { IfOk result (IsRoom plan.now number) }
{
    let mut left = between;
    while left.refused - left.accepted > 1 {
        left = halved(alloc, plan, number, left)?;
    }
    Ok(Room {
        count: left.accepted,
        next: Next::Refused(left.why),
    })
}

// What is left of these numbers once the one in their middle is tried.
fn halved(alloc: Global, plan: &Plan, number: usize, between: Between) -> Result<Between, BadPlan>
    requires inside { number < length plan.now.requests }
    requires between { LiesBetween plan.now number between }
    requires apart { between.accepted + 1 < between.refused }
    ensures between { IfOk result (LiesBetween plan.now number) }
    ensures less { IfOk result (λ left. left.refused - left.accepted < between.refused - between.accepted) }
{
    let middle = between.accepted + (between.refused - between.accepted) / 2;
    match tried_with(alloc, plan, number, middle)? {
        Tried::Accepted => Ok(Between {
            accepted: middle,
            refused: between.refused,
            why: between.why,
        }),
        Tried::Refused(why) => Ok(Between {
            accepted: between.accepted,
            refused: middle,
            why,
        }),
    }
}

// What this many more come to.
fn tried_with(alloc: Global, plan: &Plan, number: usize, count: usize) -> Result<Tried, BadPlan>
    requires inside { number < length plan.now.requests }
    ensures { IfOk result (λ tried. IsTriedWith plan.now number count (refused_in tried)) }
{
    let trial = Trial::play(alloc, with_more(alloc, plan, number, count)?)?;
    Ok(first_refused(&trial, plan.requests().len()))
}

// What the first request of a trial, from this number on, that isn't accepted has come to.
fn first_refused(trial: &Trial, first: usize) -> Tried
    requires trial { IsTrial trial.now }
    ensures { refused_in result ≡ refused_from (run_in trial.now) first trial.now.plan.requests }
{
    for number in first..trial.plan.requests().len() {
        let verdict = trial.verdict(number);
        if !is_acceptance(&verdict) {
            return Tried::Refused(verdict);
        }
    }
    Tried::Accepted
}
