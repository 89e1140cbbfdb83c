//! Plans of the link, the caller and one request or two.
ghost use Rattle.std.specs.Prelude.{◌≡◌, [], ◌∷◌, IfOk, length};
ghost use Rattle.one_link_plans.specs.OneLink.{HasThatRequest, IsNextRequest, IsThatLink, IsThatRequest, IsThatScript, OpensBoth};

use crate::parts::{channel, link, request, second_channel, second_request};
use crate::scripts::{mover, opener};
use call_script::{BadPlan, CallerEntry, LinkEntry, Plan, RequestEntry, Version, push_request};
use net_units::Name;
use setup_protocol::Control;
use std::alloc::Global;
use std::test::Fail;
use traffic_contract::Test;

/// A plan of these parts, over this many rounds.
pub fn plan(
    alloc: Global,
    version: Version,
    link: LinkEntry,
    groups: Vec<Name>,
    request: RequestEntry,
    caller: CallerEntry,
    rounds: u64,
) -> Result<Result<Plan, BadPlan>, Fail>
    requires link { IsThatLink link }
    requires request { IsThatRequest request }
    requires script { IsThatScript caller }
    ensures links { IfOk result (λ made. IfOk made (λ plan. plan.links ≡ link ∷ [])) }
    ensures requests { IfOk result (λ made. IfOk made (λ plan. plan.requests ≡ request ∷ [])) }
    ensures callers { IfOk result (λ made. IfOk made (λ plan. plan.callers ≡ caller ∷ [])) }
{
    let mut links = Vec::new(alloc);
    links.push(link)?;
    let mut requests = Vec::new(alloc);
    push_request(&mut requests, request)?;
    let mut callers = Vec::new(alloc);
    callers.push(caller)?;
    Ok(Plan::new(alloc, version, links, groups, requests, callers, rounds, 0))
}

/// A plan with both requests, without groups.
pub fn plan_of_two(
    alloc: Global,
    version: Version,
    link: LinkEntry,
    first: RequestEntry,
    second: RequestEntry,
    caller: CallerEntry,
    rounds: u64,
) -> Result<Result<Plan, BadPlan>, Fail>
    requires link { IsThatLink link }
    requires first { IsThatRequest first }
    requires second { IsNextRequest second }
    requires script { OpensBoth caller }
    ensures requests { IfOk result (λ made. IfOk made (λ plan. plan.requests ≡ first ∷ second ∷ [])) }
    ensures callers { IfOk result (λ made. IfOk made (λ plan. plan.callers ≡ caller ∷ [])) }
{
    let mut links = Vec::new(alloc);
    links.push(link)?;
    let mut requests = Vec::new(alloc);
    push_request(&mut requests, first)?;
    push_request(&mut requests, second)?;
    let mut callers = Vec::new(alloc);
    callers.push(caller)?;
    Ok(Plan::new(
        alloc,
        version,
        links,
        Vec::new(alloc),
        requests,
        callers,
        rounds,
        0,
    ))
}

/// A plan of the first version in which the caller opens the request, over this many rounds.
pub fn opened(alloc: Global, rounds: u64) -> Result<Plan, Fail>
    ensures request { IfOk result HasThatRequest }
    ensures links { IfOk result (λ plan. length plan.links ≡ 1) }
    ensures callers { IfOk result (λ plan. length plan.callers ≡ 1) }
{
    let link = link(alloc, Test::Whole, 0)?;
    let request = request(Control::Rate, None)?;
    let caller = opener(alloc)?;
    Ok(plan(
        alloc,
        Version::One,
        link,
        Vec::new(alloc),
        request,
        caller,
        rounds,
    )??)
}

/// A plan of the sixth version in which the caller opens both requests, the second for a delay of at most this many ticks, sends four
/// packets on the first channel, and moves those that are left to the second, over 40 rounds.
pub fn moved(alloc: Global, delay: u64) -> Result<Plan, Fail> {
    let link = link(alloc, Test::Least, 0)?;
    let first = request(Control::Rate, None)?;
    let second = second_request(delay)?;
    let caller = mover(alloc, 4, channel()?, second_channel()?)?;
    Ok(plan_of_two(alloc, Version::Six, link, first, second, caller, 40)??)
}
