//! The plan of a question after room: a plan's requests alone, and more like one of them.
ghost use Rattle.std.specs.Prelude.{◌≡◌, ◌<◌, ◌++◌, ◌∷◌, [], IfOk, IfSome, OnOk, length};
ghost use Rattle.net_units.specs.Numbers.{actor_number, channel_number};
ghost use Rattle.call_script.specs.Parts.{parts_with};
ghost use Rattle.call_script.specs.Plans.{IsPlan};
ghost use Rattle.call_script.specs.Splits.{group_behind};
ghost use Rattle.question_plans.specs.More.{AddsCopy, AddsOpener, HasCopies, IsWithMore};

use crate::alone::{changed_requests, links_of, names_of, opening_callers};
use crate::change::Change;
use crate::names::{free_start, name_after};
use call_script::{BadPlan, CallerEntry, LinkEntry, Op, Ops, Plan, RequestEntry, push_request};
use net_units::{ActorNo, ChanNo, Name, OutOfMemory};
use setup_protocol::Request;
use std::alloc::{AllocError, Global};

// What a copy of a request has of its own: its caller, and how its name begins.
#[derive(Clone, Copy)]
pub(crate) struct Own {
    pub(crate) caller: ActorNo,
    pub(crate) start: u8,
}

// The parts of a plan with more requests.
#[derive(Drop)]
pub(crate) struct MoreParts {
    pub(crate) links: Vec<LinkEntry>,
    pub(crate) groups: Vec<Name>,
    pub(crate) requests: Vec<RequestEntry>,
    pub(crate) callers: Vec<CallerEntry>,
}

/// A plan's requests alone, and after them this many more like the request of a number, which one more caller of its group opens.
/// `Broken` tells the rule that the plan then breaks: 9 where it has too many requests or callers.
pub fn with_more(alloc: Global, plan: &Plan, number: usize, count: usize) -> Result<Plan, BadPlan>
    requires inside { number < length plan.now.requests }
    ensures { IfOk result (IsWithMore plan.now number count) }
{
    let parts = parts_with_more(alloc, plan, number, count)?;
    let made = Plan::new(
        alloc,
        plan.version(),
        parts.links,
        parts.groups,
        parts.requests,
        parts.callers,
        0,
        0,
    )?;
    Ok(made)
}

// Its parts.
fn parts_with_more(
    alloc: Global,
    plan: &Plan,
    number: usize,
    count: usize,
) -> Result<MoreParts, BadPlan>
    requires inside { number < length plan.now.requests }
    ensures more { IfOk result (λ made. IsWithMore plan.now number count (parts_with plan.now.version made.links.items made.groups.items made.requests.items made.callers.items 0 0)) }
    ensures plan { IfOk result (λ made. IsPlan plan.now) }
{
    let links = links_of(alloc, plan.links())?;
    let groups = names_of(alloc, plan.groups())?;
    let mut requests = changed_requests(alloc, plan.requests(), &Change::Nothing)?;
    let mut callers = opening_callers(alloc, plan.callers())?;
    add_opener(alloc, plan, number, count, &mut requests, &mut callers)?;
    Ok(MoreParts {
        links,
        groups,
        requests,
        callers,
    })
}

// Adds the copies after the plan's own requests, and after these callers the one that opens them.
pub(crate) fn add_opener(
    alloc: Global,
    plan: &Plan,
    number: usize,
    count: usize,
    requests: &mut Vec<RequestEntry>,
    callers: &mut Vec<CallerEntry>,
) -> Result<(), BadPlan>
    requires inside { number < length plan.now.requests }
    requires own { requests.old.items ≡ plan.now.requests }
    requires many { length callers.old.items ≡ length plan.now.callers }
    ensures { OnOk result (AddsOpener plan.now number count callers.old.items requests.new.items callers.new.items) }
{
    let like = &plan.requests()[number];
    let opener = actor_at(callers.len()).ok_or(MANY)?;
    let own = Own {
        caller: opener,
        start: free_start(plan),
    };
    let ops = add_copies(alloc, requests, like, own, count)?;
    let name = name_after(own.start, 0).ok_or(MANY)?;
    let group = group_of(plan.callers(), like);
    add_caller(callers, CallerEntry { name, group, ops })?;
    Ok(())
}

// Too many callers or requests.
const MANY: BadPlan = BadPlan::Broken { rule: 9 };

// Adds this many copies of a request, and answers what their caller does.
fn add_copies(
    alloc: Global,
    requests: &mut Vec<RequestEntry>,
    like: &RequestEntry,
    own: Own,
    count: usize,
) -> Result<Ops, BadPlan>
    ensures { IfOk result (HasCopies like.now (actor_number own.caller) requests.old.items count requests.new.items) }
{
    let mut ops = Ops::new(Vec::new(alloc));
    for turn in 0..count {
        let chan = add_copy(requests, like, own, turn)?;
        ops.push(Op::Open(chan))?;
    }
    Ok(ops)
}

// Adds a caller after the others.
fn add_caller(callers: &mut Vec<CallerEntry>, caller: CallerEntry) -> Result<(), OutOfMemory>
    ensures { OnOk result (callers.new.items ≡ callers.old.items ++ caller ∷ []) }
{
    callers.push(caller)?;
    Ok(())
}

// Adds a copy of a request, and answers its channel.
fn add_copy(
    requests: &mut Vec<RequestEntry>,
    like: &RequestEntry,
    own: Own,
    turn: usize,
) -> Result<ChanNo, BadPlan>
    ensures { IfOk result (λ chan. AddsCopy like.now (actor_number own.caller) requests.old.items requests.new.items chan) }
{
    let chan = chan_at(requests.len()).ok_or(MANY)?;
    let name: Name = name_after(own.start, turn).ok_or(MANY)?;
    let copy = RequestEntry {
        name,
        caller: own.caller,
        request: Request {
            chan,
            route: like.request.route,
            contract: like.request.contract,
            control: like.request.control,
            delay: like.request.delay,
        },
        found: like.found,
    };
    match push_request(requests, copy) {
        Ok(()) => Ok(chan),
        Err(AllocError) => Err(BadPlan::Memory),
    }
}

// The channel of this number.
fn chan_at(number: usize) -> Option<ChanNo>
    ensures { IfSome result (λ chan. channel_number chan ≡ number) }
{
    match u32::try_from(number) {
        Ok(number) => ChanNo::new(number),
        Err(_) => None,
    }
}

// The actor of this number.
fn actor_at(number: usize) -> Option<ActorNo>
    ensures { IfSome result (λ actor. actor_number actor ≡ number) }
{
    match u8::try_from(number) {
        Ok(number) => ActorNo::new(number),
        Err(_) => None,
    }
}

// The group of the caller of a request.
fn group_of(callers: &[CallerEntry], entry: &RequestEntry) -> u8
    ensures { result ≡ group_behind callers.now entry.now }
{
    match callers.get(usize::from(entry.caller.get())) {
        Some(caller) => caller.group,
        None => 0,
    }
}
