//! How full a link is, and each group's share of one that is split.
ghost use Rattle.std.specs.Prelude.{◌≤◌, ◌<◌, ◌+◌, IfOk, OnOk, length};

use call_script::{LinkEntry, Plan, RequestEntry};
use link_fill::{Crossing, Fill, Held, LevelFill, Share, fill_of};
use link_steps::Quota;
use load_table::LinkNumbers;
use net_units::Level;
use net_units::limits::MOST_REQUESTS;
use network_pictures::{FillFacts, HopFacts, LevelFacts, RequestFacts, ShareFacts};
use std::alloc::{AllocError, Global};

/// The shares that groups have of the link at a place.
pub(crate) fn shares_of(
    alloc: Global,
    plan: &Plan,
    requests: &[RequestFacts],
    place: usize,
) -> Result<Vec<ShareFacts>, AllocError>
    requires inside { place < length plan.now.links }
{
    let mut shares = Vec::new(alloc);
    for quota in plan.links()[place].quotas.as_slice() {
        shares.push(ShareFacts {
            group: String::from_str(alloc, group_name(plan, quota.group))?,
            fill: fill_facts(alloc, plan, requests, place, Some(*quota))?,
        })?;
    }
    Ok(shares)
}

// The name of the group of a number, from 1.
fn group_name(plan: &Plan, group: u8) -> &str {
    let place = usize::from(group).saturating_sub(1);
    match plan.groups().get(place) {
        Some(name) => name.as_str(),
        None => "",
    }
}

/// How full the link at a place is with these requests, or the share of it with this quota.
pub(crate) fn fill_facts(
    alloc: Global,
    plan: &Plan,
    requests: &[RequestFacts],
    place: usize,
    quota: Option<Quota>,
) -> Result<FillFacts, AllocError>
    requires inside { place < length plan.now.links }
{
    let share = share_of(&plan.links()[place], quota);
    let users = users_of(alloc, plan, requests, place, &quota)?;
    let crossings = crossings_of(alloc, plan, requests, users.as_slice(), place)?;
    let fill = fill_of(alloc, &share, crossings.as_slice())?;
    facts_in(alloc, &fill, users)
}

// A link, or a share of it.
fn share_of(entry: &LinkEntry, quota: Option<Quota>) -> Share
    ensures { 1 ≤ result.numbers.rate }
{
    let shape = &entry.shape;
    Share {
        numbers: LinkNumbers {
            rate: shape.rate,
            blocking: shape.blocking(),
            test: shape.test,
        },
        bounds: shape.bounds,
        buffer: shape.buffer,
        quota,
    }
}

// The requests that cross a link, or those of the quota's group.
fn users_of(
    alloc: Global,
    plan: &Plan,
    requests: &[RequestFacts],
    place: usize,
    quota: &Option<Quota>,
) -> Result<Vec<usize>, AllocError> {
    let mut users = Vec::new(alloc);
    for number in 0..requests.len() {
        if requests[number]
            .hops
            .iter()
            .any(|hop: &HopFacts| hop.link == place)
            && is_of(plan, number, quota)
        {
            users.push(number)?;
        }
    }
    Ok(users)
}

// Whether the request of a number is of the quota's group.
fn is_of(plan: &Plan, number: usize, quota: &Option<Quota>) -> bool {
    let Some(quota) = quota else {
        return true;
    };
    let caller = plan
        .requests()
        .get(number)
        .map(|entry: &RequestEntry| usize::from(entry.caller.get()));
    match plan.callers().get(caller.unwrap_or(usize::MAX)) {
        Some(caller) => caller.group == quota.group,
        None => false,
    }
}

// What the first 1,024 of these requests have at a link; a plan has no more.
fn crossings_of(
    alloc: Global,
    plan: &Plan,
    requests: &[RequestFacts],
    users: &[usize],
    place: usize,
) -> Result<Vec<Crossing>, AllocError>
    ensures { IfOk result (λ crossings. length crossings.items ≤ 1024) }
{
    let mut crossings = Vec::new(alloc);
    for number in 0..few(users.len()) {
        push_crossing(&mut crossings, plan, requests, users[number], place)?;
    }
    Ok(crossings)
}

// As many requests as a plan may have.
fn few(count: usize) -> usize
    ensures most { result ≤ 1024 }
    ensures within { result ≤ count }
{
    if count < MOST_REQUESTS {
        count
    } else {
        MOST_REQUESTS
    }
}

// Adds what the request of a number has at a link.
fn push_crossing(
    crossings: &mut Vec<Crossing>,
    plan: &Plan,
    requests: &[RequestFacts],
    number: usize,
    place: usize,
) -> Result<(), AllocError>
    ensures { OnOk result (length crossings.new.items ≤ length crossings.old.items + 1) }
{
    let Some(entry) = plan.requests().get(number) else {
        return Ok(());
    };
    let held = match requests.get(number) {
        Some(request) => held_at(request.hops.as_slice(), place),
        None => None,
    };
    crossings.push(Crossing {
        contract: entry.request.contract,
        held,
    })?;
    Ok(())
}

// What a request with these hops has at a link: None where it isn't accepted.
fn held_at(hops: &[HopFacts], place: usize) -> Option<Held> {
    let mut before: u32 = 0;
    for hop in hops {
        let (level, bound) = hop.given?;
        let here = u32::try_from(bound).ok()?;
        if hop.link == place {
            return Some(Held {
                level: Level::new(u8::try_from(level).ok()?)?,
                before,
                here,
            });
        }
        before = here;
    }
    None
}

// How full it is, for a page.
fn facts_in(alloc: Global, fill: &Fill, users: Vec<usize>) -> Result<FillFacts, AllocError> {
    let mut levels = Vec::new(alloc);
    for level in &fill.levels {
        levels.push(level_facts(level))?;
    }
    Ok(FillFacts {
        buffer: fill.buffer,
        free: fill.buffer.saturating_sub(fill.kept),
        long_run: fill.long_run,
        levels,
        users,
        accepted: fill.accepted as u64,
    })
}

// How full a level is.
fn level_facts(level: &LevelFill) -> LevelFacts {
    LevelFacts {
        work: level.work,
        bound: level.bound,
        room: level.room.map(|room: usize| room as u64),
    }
}
