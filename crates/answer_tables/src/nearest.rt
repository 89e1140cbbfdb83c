//! With what delay, or with what jitter, a request would be accepted, tried first where the answer mostly lies.
ghost use Rattle.std.specs.Prelude.{◌<◌, IfOk, length};
ghost use Rattle.plan_answers.specs.Delays.{DelayGives, IsLeast};
ghost use Rattle.answer_tables.specs.Jitters.{IsLeastJitter, JitterGives};

use crate::jitter::{least_jitter, verdict_of_jitter};
use call_script::{BadPlan, Plan};
use plan_answers::{Least, is_acceptance, least_delay, verdict_with};
use question_plans::Change;
use setup_protocol::Verdict;
use std::alloc::Global;

/// With what jitter a request would be accepted, in its place among the others and with the delay that is wanted.
#[derive(Clone, Copy, Debug)]
pub enum LeastJitter {
    /// With this jitter, in ticks, and not with a tick less.
    Jitter(u64),
    /// Not even with the largest jitter that a request may ask for. With that it comes to this: None where its setup doesn't end.
    Refused(Option<Verdict>),
}

/// With what delay the request of a number would be accepted. A delay near it is tried first; whatever it is, the answer is the same
/// wherever each longer delay than one that is accepted is accepted, too.
pub fn least_delay_near(
    alloc: Global,
    plan: &Plan,
    number: usize,
    near: u64,
) -> Result<Least, BadPlan>
    requires inside { number < length plan.now.requests }
    ensures { IfOk result (IsLeast plan.now number) }
{
    if near < 2 || !is_accepted_within(alloc, plan, number, near)? {
        return least_delay(alloc, plan, number);
    }
    if is_accepted_within(alloc, plan, number, near - 1)? {
        return least_delay(alloc, plan, number);
    }
    Ok(Least::Delay(near))
}

// Whether it is accepted with this delay.
pub(crate) fn is_accepted_within(
    alloc: Global,
    plan: &Plan,
    number: usize,
    delay: u64,
) -> Result<bool, BadPlan>
    requires inside { number < length plan.now.requests }
    ensures { IfOk result (DelayGives plan.now number delay) }
{
    let change = Change::Delay { number, delay };
    let verdict = verdict_with(alloc, plan, &change, number)?;
    Ok(is_acceptance(&verdict))
}

/// With what jitter the request of a number would be accepted. A jitter near it is tried first.
pub fn least_jitter_near(
    alloc: Global,
    plan: &Plan,
    number: usize,
    near: u64,
) -> Result<LeastJitter, BadPlan>
    requires inside { number < length plan.now.requests }
    ensures { IfOk result (IsLeastJitter plan.now number) }
{
    if near < 2 || !is_accepted_jitter(alloc, plan, number, near)? {
        return least_jitter(alloc, plan, number);
    }
    if is_accepted_jitter(alloc, plan, number, near - 1)? {
        return least_jitter(alloc, plan, number);
    }
    Ok(LeastJitter::Jitter(near))
}

// Whether it is accepted with this jitter.
fn is_accepted_jitter(
    alloc: Global,
    plan: &Plan,
    number: usize,
    jitter: u64,
) -> Result<bool, BadPlan>
    requires inside { number < length plan.now.requests }
    ensures { IfOk result (JitterGives plan.now number jitter) }
{
    let verdict = verdict_of_jitter(alloc, plan, number, jitter)?;
    Ok(is_acceptance(&verdict))
}
