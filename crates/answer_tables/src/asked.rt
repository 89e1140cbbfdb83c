//! What is asked with one delay after another.
ghost use Rattle.std.specs.Prelude.{ℕ, Bool, ◌<◌, IfOk, length};
ghost use Rattle.call_script.specs.Parts.{PlanParts};

use crate::nearest::is_accepted_within;
use crate::rows::near_with;
use call_script::{BadPlan, Plan};
use std::alloc::Global;

/// Where the requests of plans are asked with one delay after another. Each call is given the plan and the number of its request.
pub trait AskedWithin<F>: Drop {
    /// Whether the request of a number is accepted with a delay, of a plan.
    ghost gives: { Self → PlanParts → ℕ → ℕ → Bool → Type 0 };

    /// Whether the request is accepted with this delay, in ticks.
    fn is_accepted(&self, alloc: Global, plan: &Plan, number: usize, delay: u64) -> Result<bool, F>
        requires inside { number < length plan.now.requests }
        ensures { IfOk result (gives self.now plan.now number delay) };

    /// The sum of what its hops offer with this delay and of the propagations, in ticks; 0 where one of them offers nothing.
    fn sum_offered(&self, alloc: Global, plan: &Plan, number: usize, delay: u64) -> Result<u64, F>
        requires inside { number < length plan.now.requests };
}

/// Among a plan's requests alone.
#[derive(Clone, Copy, Debug)]
pub struct AmongRequests;

impl AskedWithin<BadPlan> for AmongRequests {
    ghost use Rattle.plan_answers.specs.Delays.{DelayGives};

    ghost gives = { λ _ parts number delay accepted. DelayGives parts number delay accepted };

    fn is_accepted(
        &self,
        alloc: Global,
        plan: &Plan,
        number: usize,
        delay: u64,
    ) -> Result<bool, BadPlan> {
        is_accepted_within(alloc, plan, number, delay)
    }

    fn sum_offered(
        &self,
        alloc: Global,
        plan: &Plan,
        number: usize,
        delay: u64,
    ) -> Result<u64, BadPlan> {
        let near = near_with(alloc, plan, number, delay)?;
        Ok(near.sum)
    }
}
