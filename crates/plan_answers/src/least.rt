//! With what delay a request would be accepted.
ghost use Rattle.std.specs.Prelude.{◌+◌, ◌-◌, ◌<◌, IfOk, length, option_map};
ghost use Rattle.setup_protocol.specs.State.{outcome_of};
ghost use Rattle.plan_answers.specs.Delays.{ComesTo, IsLeast, IsTried, LiesBetween};

use crate::trial::{Trial, is_acceptance};
use call_script::{BadPlan, Plan};
use net_units::limits::MOST_DELAY;
use question_plans::{Change, requests_alone};
use setup_protocol::Verdict;
use std::alloc::Global;

/// With what delay a request would be accepted, in its place among the others.
#[derive(Clone, Copy, Debug)]
pub enum Least {
    /// With this delay, in ticks, and not with a tick less.
    Delay(u64),
    /// Not even with the largest delay that a request may ask for. With that it comes to this: None where its setup doesn't end.
    Refused(Option<Verdict>),
}

/// What the request of a number comes to among the plan's requests alone, with what is wanted for one of them: None where its
/// setup doesn't end.
pub fn verdict_with(
    alloc: Global,
    plan: &Plan,
    change: &Change,
    number: usize,
) -> Result<Option<Verdict>, BadPlan>
    requires inside { number < length plan.now.requests }
    ensures { IfOk result (λ verdict. ComesTo plan.now change.now number (option_map outcome_of verdict)) }
{
    let trial = Trial::play(alloc, requests_alone(alloc, plan, change)?)?;
    Ok(trial.verdict(number))
}

// Delays between which the answer lies.
#[derive(Clone, Copy)]
pub(crate) struct Between {
    denied: u64,
    accepted: u64,
}

/// With what delay the request of a number would be accepted.
pub fn least_delay(alloc: Global, plan: &Plan, number: usize) -> Result<Least, BadPlan>
    requires inside { number < length plan.now.requests }
    ensures { IfOk result (IsLeast plan.now number) }
{
    let verdict = verdict_of_delay(alloc, plan, number, MOST_DELAY)?;
    if !is_acceptance(&verdict) {
        return Ok(Least::Refused(verdict));
    }
    let between = Between {
        denied: 0,
        accepted: MOST_DELAY,
    };
    least_between(alloc, plan, number, between)
}

// The answer between two delays.
fn least_between(
    alloc: Global,
    plan: &Plan,
    number: usize,
    between: Between,
) -> Result<Least, BadPlan>
    requires inside { number < length plan.now.requests }
    requires between { LiesBetween plan.now number between }
    ensures { IfOk result (IsLeast plan.now number) }
{
    let mut left = between;
    while left.accepted - left.denied > 1 {
        left = halved(alloc, plan, number, left)?;
    }
    Ok(Least::Delay(left.accepted))
}

// What is left of these delays once the one in their middle is tried.
fn halved(alloc: Global, plan: &Plan, number: usize, between: Between) -> Result<Between, BadPlan>
    requires inside { number < length plan.now.requests }
    requires between { LiesBetween plan.now number between }
    requires apart { between.denied + 1 < between.accepted }
    ensures between { IfOk result (LiesBetween plan.now number) }
    ensures less { IfOk result (λ left. left.accepted - left.denied < between.accepted - between.denied) }
{
    let middle = between.denied + (between.accepted - between.denied) / 2;
    let verdict = verdict_of_delay(alloc, plan, number, middle)?;
    if is_acceptance(&verdict) {
        Ok(Between {
            denied: between.denied,
            accepted: middle,
        })
    } else {
        Ok(Between {
            denied: middle,
            accepted: between.accepted,
        })
    }
}

// What it comes to with this delay.
fn verdict_of_delay(
    alloc: Global,
    plan: &Plan,
    number: usize,
    delay: u64,
) -> Result<Option<Verdict>, BadPlan>
    requires inside { number < length plan.now.requests }
    ensures { IfOk result (λ verdict. IsTried plan.now number delay (option_map outcome_of verdict)) }
{
    let change = Change::Delay { number, delay };
    verdict_with(alloc, plan, &change, number)
}
