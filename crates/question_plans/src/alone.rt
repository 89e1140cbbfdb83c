//! The plan of a question: a plan's requests alone.
ghost use Rattle.std.specs.Prelude.{◌≡◌, ◌++◌, ◌∷◌, [], IfOk, OnOk, map};
ghost use Rattle.question_plans.specs.Alone.{alone_of, changed, is_open, opens_in, opens_of};

use crate::change::Change;
use call_script::{
    BadPlan, CallerEntry, LinkEntry, Op, Ops, Plan, Quotas, RequestEntry, push_request,
};
use link_steps::Quota;
use net_units::{Name, OutOfMemory};
use std::alloc::Global;

/// A plan's requests alone, with what a question wants for one of them. `Broken` tells the rule that the plan then breaks, such as
/// a number out of its range.
pub fn requests_alone(alloc: Global, plan: &Plan, change: &Change) -> Result<Plan, BadPlan>
    ensures { IfOk result (λ made. made ≡ alone_of change.now plan.now) }
{
    let links = links_of(alloc, plan.links())?;
    let groups = names_of(alloc, plan.groups())?;
    let requests = changed_requests(alloc, plan.requests(), change)?;
    let callers = opening_callers(alloc, plan.callers())?;
    let made = Plan::new(
        alloc,
        plan.version(),
        links,
        groups,
        requests,
        callers,
        0,
        0,
    )?;
    Ok(made)
}

// The same links.
pub(crate) fn links_of(alloc: Global, links: &[LinkEntry]) -> Result<Vec<LinkEntry>, OutOfMemory>
    ensures { IfOk result (λ copied. copied.items ≡ links.now) }
{
    let mut copied = Vec::new(alloc);
    for link in links {
        let quotas = quotas_of(alloc, link.quotas.as_slice())?;
        copied.push(LinkEntry {
            name: link.name,
            from: link.from,
            to: link.to,
            shape: link.shape,
            quotas: Quotas::new(quotas),
        })?;
    }
    Ok(copied)
}

// The same quotas.
fn quotas_of(alloc: Global, quotas: &[Quota]) -> Result<Vec<Quota>, OutOfMemory>
    ensures { IfOk result (λ copied. copied.items ≡ quotas.now) }
{
    let mut copied = Vec::new(alloc);
    copied.extend_from_slice(quotas)?;
    Ok(copied)
}

// The same names.
pub(crate) fn names_of(alloc: Global, names: &[Name]) -> Result<Vec<Name>, OutOfMemory>
    ensures { IfOk result (λ copied. copied.items ≡ names.now) }
{
    let mut copied = Vec::new(alloc);
    copied.extend_from_slice(names)?;
    Ok(copied)
}

// The requests, with what is wanted for one of them.
pub(crate) fn changed_requests(
    alloc: Global,
    requests: &[RequestEntry],
    change: &Change,
) -> Result<Vec<RequestEntry>, OutOfMemory>
    ensures { IfOk result (λ made. made.items ≡ map (changed change.now) requests.now) }
{
    let mut made = Vec::new(alloc);
    for entry in requests {
        add_changed(&mut made, entry, change)?;
    }
    Ok(made)
}

// Adds a request, with what is wanted for it.
fn add_changed(
    made: &mut Vec<RequestEntry>,
    entry: &RequestEntry,
    change: &Change,
) -> Result<(), OutOfMemory>
    ensures { OnOk result (made.new.items ≡ made.old.items ++ changed change.now entry.now ∷ []) }
{
    let request = change.apply(&entry.request);
    let changed = RequestEntry {
        name: entry.name,
        caller: entry.caller,
        request,
        found: entry.found,
    };
    push_request(made, changed)?;
    Ok(())
}

// The callers, which do no more than open their requests.
pub(crate) fn opening_callers(
    alloc: Global,
    callers: &[CallerEntry],
) -> Result<Vec<CallerEntry>, OutOfMemory>
    ensures { IfOk result (λ made. made.items ≡ map opens_of callers.now) }
{
    let mut made = Vec::new(alloc);
    for caller in callers {
        let ops = opens_among(alloc, caller.ops.as_slice())?;
        made.push(CallerEntry {
            name: caller.name,
            group: caller.group,
            ops: Ops::new(ops),
        })?;
    }
    Ok(made)
}

// The opens among these operations.
fn opens_among(alloc: Global, ops: &[Op]) -> Result<Vec<Op>, OutOfMemory>
    ensures { IfOk result (λ opens. opens.items ≡ opens_in ops.now) }
{
    let mut opens = Vec::new(alloc);
    for op in ops {
        add_open(&mut opens, op)?;
    }
    Ok(opens)
}

// Adds an operation that opens a request, and no other.
fn add_open(opens: &mut Vec<Op>, op: &Op) -> Result<(), OutOfMemory>
    ensures { OnOk result (opens.new.items ≡ opens.old.items ++ opens_in (op.now ∷ [])) }
{
    if !is_open(op) {
        return Ok(());
    }
    opens.push(*op)?;
    Ok(())
}

// Whether an operation opens a request.
fn is_open(op: &Op) -> bool
    ensures { result ≡ is_open op.now }
{
    matches!(op, Op::Open(_))
}
