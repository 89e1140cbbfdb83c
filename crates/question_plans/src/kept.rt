//! The plan of a question, which keeps all that a plan says but for what is wanted, or adds more requests after it.
ghost use Rattle.std.specs.Prelude.{◌≡◌, ◌<◌, IfOk, length};
ghost use Rattle.call_script.specs.Parts.{parts_with};
ghost use Rattle.call_script.specs.Plans.{IsPlan};
ghost use Rattle.question_plans.specs.Kept.{changed_plan};
ghost use Rattle.question_plans.specs.More.{IsWithMoreAfter};

use crate::alone::{changed_requests, links_of, names_of};
use crate::change::Change;
use crate::more::{MoreParts, add_opener};
use call_script::{BadPlan, CallerEntry, Op, Ops, Plan};
use net_units::OutOfMemory;
use std::alloc::Global;

/// A plan with what a question wants for one of its requests: its callers do what they did, and the plane makes its rounds. `Broken`
/// tells the rule that the plan then breaks, such as a number out of its range.
pub fn with_change(alloc: Global, plan: &Plan, change: &Change) -> Result<Plan, BadPlan>
    ensures { IfOk result (λ made. made ≡ changed_plan change.now plan.now) }
{
    let links = links_of(alloc, plan.links())?;
    let groups = names_of(alloc, plan.groups())?;
    let requests = changed_requests(alloc, plan.requests(), change)?;
    let callers = callers_of(alloc, plan.callers())?;
    let made = Plan::new(
        alloc,
        plan.version(),
        links,
        groups,
        requests,
        callers,
        plan.rounds(),
        plan.tail(),
    )?;
    Ok(made)
}

// The same callers.
pub(crate) fn callers_of(
    alloc: Global,
    callers: &[CallerEntry],
) -> Result<Vec<CallerEntry>, OutOfMemory>
    ensures { IfOk result (λ copied. copied.items ≡ callers.now) }
{
    let mut copied = Vec::new(alloc);
    for caller in callers {
        let ops = ops_of(alloc, caller.ops.as_slice())?;
        copied.push(CallerEntry {
            name: caller.name,
            group: caller.group,
            ops: Ops::new(ops),
        })?;
    }
    Ok(copied)
}

// The same operations.
fn ops_of(alloc: Global, ops: &[Op]) -> Result<Vec<Op>, OutOfMemory>
    ensures { IfOk result (λ copied. copied.items ≡ ops.now) }
{
    let mut copied = Vec::new(alloc);
    copied.extend_from_slice(ops)?;
    Ok(copied)
}

/// A plan, and after all that its callers do this many more like the request of a number, which one more caller of its group opens.
/// The plane's number is one higher in it. `Broken` tells the rule that the plan then breaks: 9 where it has too many requests or
/// callers.
pub fn with_more_after(
    alloc: Global,
    plan: &Plan,
    number: usize,
    count: usize,
) -> Result<Plan, BadPlan>
    requires inside { number < length plan.now.requests }
    ensures { IfOk result (IsWithMoreAfter plan.now number count) }
{
    let parts = parts_after(alloc, plan, number, count)?;
    let made = Plan::new(
        alloc,
        plan.version(),
        parts.links,
        parts.groups,
        parts.requests,
        parts.callers,
        plan.rounds(),
        plan.tail(),
    )?;
    Ok(made)
}

// Its parts.
fn parts_after(
    alloc: Global,
    plan: &Plan,
    number: usize,
    count: usize,
) -> Result<MoreParts, BadPlan>
    requires inside { number < length plan.now.requests }
    ensures more { IfOk result (λ made. IsWithMoreAfter plan.now number count (parts_with plan.now.version made.links.items made.groups.items made.requests.items made.callers.items plan.now.rounds plan.now.tail)) }
    ensures plan { IfOk result (λ made. IsPlan plan.now) }
{
    let links = links_of(alloc, plan.links())?;
    let groups = names_of(alloc, plan.groups())?;
    let mut requests = changed_requests(alloc, plan.requests(), &Change::Nothing)?;
    let mut callers = callers_of(alloc, plan.callers())?;
    add_opener(alloc, plan, number, count, &mut requests, &mut callers)?;
    Ok(MoreParts {
        links,
        groups,
        requests,
        callers,
    })
}
