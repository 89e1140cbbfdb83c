//! The search for the least jitter, between two jitters.
ghost use Rattle.std.specs.Prelude.{◌+◌, ◌-◌, ◌<◌, IfOk, length, option_map};
ghost use Rattle.setup_protocol.specs.State.{outcome_of};
ghost use Rattle.answer_tables.specs.Jitters.{IsLeastJitter, IsTriedJitter, LiesBetween};

use crate::nearest::LeastJitter;
use call_script::{BadPlan, Plan};
use net_units::limits::MOST_DELAY;
use plan_answers::{is_acceptance, verdict_with};
use question_plans::Change;
use setup_protocol::Verdict;
use std::alloc::Global;

// Jitters between which the answer lies.
#[derive(Clone, Copy)]
pub(crate) struct Between {
    denied: u64,
    accepted: u64,
}

// With what jitter the request of a number would be accepted.
pub(crate) fn least_jitter(
    alloc: Global,
    plan: &Plan,
    number: usize,
) -> Result<LeastJitter, BadPlan>
    requires inside { number < length plan.now.requests }
    ensures { IfOk result (IsLeastJitter plan.now number) }
{
    let verdict = verdict_of_jitter(alloc, plan, number, MOST_DELAY)?;
    if !is_acceptance(&verdict) {
        return Ok(LeastJitter::Refused(verdict));
    }
    let between = Between {
        denied: 0,
        accepted: MOST_DELAY,
    };
    least_between(alloc, plan, number, between)
}

// The answer between two jitters.
fn least_between(
    alloc: Global,
    plan: &Plan,
    number: usize,
    between: Between,
) -> Result<LeastJitter, BadPlan>
    requires inside { number < length plan.now.requests }
    requires between { LiesBetween plan.now number between }
    ensures { IfOk result (IsLeastJitter plan.now number) }
{
    let mut left = between;
    while left.accepted - left.denied > 1 {
        left = halved(alloc, plan, number, left)?;
    }
    Ok(LeastJitter::Jitter(left.accepted))
}

// What is left of these jitters once the one in their middle is tried.
fn halved(alloc: Global, plan: &Plan, number: usize, between: Between) -> Result<Between, BadPlan>
    requires inside { number < length plan.now.requests }
    requires between { LiesBetween plan.now number between }
    requires apart { between.denied + 1 < between.accepted }
    ensures between { IfOk result (LiesBetween plan.now number) }
    ensures less { IfOk result (λ left. left.accepted - left.denied < between.accepted - between.denied) }
{
    let middle = between.denied + (between.accepted - between.denied) / 2;
    let verdict = verdict_of_jitter(alloc, plan, number, middle)?;
    if is_acceptance(&verdict) {
        Ok(Between {
            denied: between.denied,
            accepted: middle,
        })
    } else {
        Ok(Between {
            denied: middle,
            accepted: between.accepted,
        })
    }
}

// What it comes to with this jitter.
pub(crate) fn verdict_of_jitter(
    alloc: Global,
    plan: &Plan,
    number: usize,
    jitter: u64,
) -> Result<Option<Verdict>, BadPlan>
    requires inside { number < length plan.now.requests }
    ensures { IfOk result (λ verdict. IsTriedJitter plan.now number jitter (option_map outcome_of verdict)) }
{
    let change = Change::Jitter { number, jitter };
    verdict_with(alloc, plan, &change, number)
}
