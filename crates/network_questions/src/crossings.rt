//! The requests over a link, with what they have come to.
ghost use Rattle.std.specs.Prelude.{◌≤◌, ◌<◌, ◌+◌, IfOk, IfSome, OnErr, OnOk, length};
ghost use Rattle.net_units.specs.Numbers.{level_number};
ghost use Rattle.plan_answers.specs.Trials.{IsTrial};

use call_script::{LinkEntry, Plan, RequestEntry};
use hop_reservation::Route;
use link_fill::{Crossing, Held, Share};
use link_steps::Quota;
use load_table::LinkNumbers;
use net_units::limits::MOST_REQUESTS;
use net_units::{Level, LinkNo};
use plan_answers::Trial;
use setup_protocol::Verdict;
use std::alloc::{AllocError, Global};

/// A link of a plan.
pub(crate) fn share_of_link(plan: &Plan, link: LinkNo) -> Option<Share>
    ensures { IfSome result (λ share. 1 ≤ share.numbers.rate) }
{
    let entry = plan.links().get(usize::from(link.get()))?;
    Some(share_of(entry, None))
}

/// The share that a group has of a link, by its number: None where it has none.
pub(crate) fn share_of_group(plan: &Plan, link: LinkNo, group: u8) -> Option<Share>
    ensures { IfSome result (λ share. 1 ≤ share.numbers.rate) }
{
    let entry = plan.links().get(usize::from(link.get()))?;
    let quota = quota_of(entry.quotas.as_slice(), group)?;
    Some(share_of(entry, Some(quota)))
}

// A link, or a share of it.
fn share_of(entry: &LinkEntry, quota: Option<Quota>) -> Share
    ensures { 1 ≤ result.numbers.rate }
{
    let shape = &entry.shape;
    Share {
        numbers: LinkNumbers {
            rate: shape.rate,
            blocking: shape.blocking(),
            test: shape.test,
        },
        bounds: shape.bounds,
        buffer: shape.buffer,
        quota,
    }
}

// The quota of a group.
fn quota_of(quotas: &[Quota], group: u8) -> Option<Quota> {
    for quota in quotas {
        if quota.group == group {
            return Some(*quota);
        }
    }
    None
}

/// The requests over a link, of one group or of all, in a trial.
pub(crate) fn crossings_of(
    alloc: Global,
    trial: &Trial,
    link: LinkNo,
    group: Option<u8>,
) -> Result<Vec<Crossing>, AllocError>
    requires trial { IsTrial trial.now }
    ensures { IfOk result (λ crossings. length crossings.items ≤ 1024) }
{
    let requests = trial.plan.requests();
    let mut crossings = Vec::new(alloc);
    for number in 0..few(requests.len()) {
        let entry = &requests[number];
        if is_of(&trial.plan, entry, group) {
            let verdict = trial.verdict(number);
            push_crossing(&mut crossings, entry, &verdict, link)?;
        }
    }
    Ok(crossings)
}

/// As many requests as a plan may have.
pub(crate) fn few(count: usize) -> usize
    ensures most { result ≤ 1024 }
    ensures within { result ≤ count }
{
    if count < MOST_REQUESTS {
        count
    } else {
        MOST_REQUESTS
    }
}

/// Whether a request is of a group, or no group is asked for.
pub(crate) fn is_of(plan: &Plan, entry: &RequestEntry, group: Option<u8>) -> bool {
    match group {
        None => true,
        Some(group) => group_of(plan, entry) == group,
    }
}

/// The group of a request's caller, or 0.
pub(crate) fn group_of(plan: &Plan, entry: &RequestEntry) -> u8 {
    match plan.callers().get(usize::from(entry.caller.get())) {
        Some(caller) => caller.group,
        None => 0,
    }
}

// Adds a request, where it goes over the link.
fn push_crossing(
    crossings: &mut Vec<Crossing>,
    entry: &RequestEntry,
    verdict: &Option<Verdict>,
    link: LinkNo,
) -> Result<(), AllocError>
    ensures { OnOk result (length crossings.new.items ≤ length crossings.old.items + 1) }
{
    let route = &entry.request.route;
    if let Some(place) = place_of(route, link) {
        crossings.push(Crossing {
            contract: entry.request.contract,
            held: held_at(route, verdict, place),
        })?;
    }
    Ok(())
}

// What an accepted request has at a place, from 1.
fn held_at(route: &Route, verdict: &Option<Verdict>, place: u8) -> Option<Held> {
    Some(Held {
        level: level_at(verdict, place)?,
        before: bound_at(route, verdict, place.saturating_sub(1)),
        here: bound_at(route, verdict, place),
    })
}

/// The place of a link in a route, from 1.
pub(crate) fn place_of(route: &Route, link: LinkNo) -> Option<u8> {
    for place in 1..=route.len() {
        if route.hop(place).link == link {
            return Some(place);
        }
    }
    None
}

// The level that an accepted request has at a place, from 1.
fn level_at(verdict: &Option<Verdict>, place: u8) -> Option<Level> {
    match verdict {
        Some(Verdict::Accepted { levels, .. }) if 1 <= place && place <= levels.len() => Some(
            levels.at(place),
        ),
        _ => None,
    }
}

// The bound of the level that an accepted request has at a place, from 1; 0 where there is none.
fn bound_at(route: &Route, verdict: &Option<Verdict>, place: u8) -> u32 {
    if place == 0 || place > route.len() {
        return 0;
    }
    let bounds = route.hop(place).bounds;
    let Some(level) = level_at(verdict, place) else {
        return 0;
    };
    if level.get() <= bounds.len() {
        bounds.at(level)
    } else {
        0
    }
}
