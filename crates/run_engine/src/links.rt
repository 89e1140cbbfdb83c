//! The links of a run, as they are kept.
ghost use Rattle.std.specs.Prelude.{◌≡◌, ◌≢◌, ◌^◌, ◌+◌, ◌<◌, ◌≤◌, ◌∷◌, [], ℕ, List, Some, IfOk, OnErr, length, map};
ghost use Rattle.std.specs.List.{slice_get};
ghost use Rattle.call_script.specs.Plans.{IsPlan};
ghost use Rattle.net_units.specs.Numbers.{link_number};
ghost use Rattle.call_script.specs.Splits.{entry_link, groups_in};
ghost use Rattle.call_script.specs.Tasks.{network_of};
ghost use Rattle.run_engine.specs.schedules.Resting.{RestsBy, HaveRested};
ghost use Rattle.link_quota.specs.Any.{any_rules, any_clock, AnyStands};
ghost use Rattle.link_quota.specs.declared.any_link.AnyLink.{AnyLink as Kept};
ghost use Rattle.link_server.specs.Asks.{IsArriveOrTick};
ghost use Rattle.link_steps.specs.Legal.{AskFits};
ghost use Rattle.link_steps.specs.declared.asks.Ask.TheVariants.{Tick as AskTick};
ghost use Rattle.link_steps.specs.Lists.{Each};
ghost use Rattle.link_steps.specs.Quiet.{quiet_reply};
ghost use Rattle.link_steps.specs.Replies.{reply_to};
ghost use Rattle.link_steps.specs.declared.replies.Entry.{Entry};

use call_script::{LinkEntry, Plan};
use link_quota::{AnyLink, QuotaLink};
use link_server::LinkState;
use link_steps::{Ask, LinkStep, Reply};
use net_units::OutOfMemory;
use std::alloc::Global;

/// The links of a plan, before they have made a step: split where the plan has quotas for them, with the group of each channel. An
/// `Err` comes only for want of memory.
pub fn new_links(alloc: Global, plan: &Plan) -> Result<Vec<AnyLink>, OutOfMemory>
    ensures rules { IfOk result (λ links. map any_rules links.items ≡ (network_of plan.now).links) }
    ensures stand { IfOk result (λ links. Each (λ link. AnyStands link []) links.items) }
    ensures plan { IsPlan plan.now }
{
    let entries = plan.links();
    let mut links = Vec::with_capacity(alloc, entries.len())?;
    for entry in entries {
        links.push(new_link(alloc, plan, entry)?)?;
    }
    Ok(links)
}

// The link of this entry of a plan, before it has made a step.
fn new_link(alloc: Global, plan: &Plan, entry: &LinkEntry) -> Result<AnyLink, OutOfMemory>
    requires { slice_get plan.now.links (link_number entry.now.shape.link) ≡ Some entry.now }
    ensures rules { IfOk result (λ link. any_rules link ≡ entry_link (groups_in plan.now) entry.now) }
    ensures stands { IfOk result (λ link. AnyStands link []) }
{
    match plan.split(alloc, entry.shape.link)? {
        Some(split) => Ok(AnyLink::Quota(QuotaLink::new(alloc, entry.shape, split)?)),
        None => Ok(AnyLink::Plain(LinkState::new(alloc, entry.shape)?)),
    }
}

// The link of this number makes a step.
pub(crate) fn step_link(
    links: &mut [AnyLink],
    number: usize,
    ask: &Ask,
) -> Result<Reply, OutOfMemory>
    requires inside { number < length links.old }
    requires fits { (link : Kept) → slice_get links.old number ≡ Some link → AskFits (any_rules link).shape ask.now }
    requires early { (link : Kept) → slice_get links.old number ≡ Some link → any_clock link < 2 ^ 61 }
    ensures length { length links.new ≡ length links.old }
    ensures others { (n : ℕ) → n ≢ number → slice_get links.new n ≡ slice_get links.old n }
    ensures same { (link next : Kept) → slice_get links.old number ≡ Some link → slice_get links.new number ≡ Some next → any_rules next ≡ any_rules link }
    ensures legal { IfOk result (λ reply. (link : Kept) (h : List Entry) → slice_get links.old number ≡ Some link → AnyStands link h → reply ≡ reply_to (any_rules link) h ask.now) }
    ensures entered { IfOk result (λ reply. (link next : Kept) (h : List Entry) → slice_get links.old number ≡ Some link → slice_get links.new number ≡ Some next → AnyStands link h → AnyStands next (record { ask = ask.now; reply = reply } ∷ h)) }
    ensures memory { OnErr result ((link next : Kept) (h : List Entry) → slice_get links.old number ≡ Some link → slice_get links.new number ≡ Some next → AnyStands link h → AnyStands next h) }
{
    links[number].step(ask)
}

// The same of a step that lets a packet arrive or makes a tick. It never wants memory.
#[inline(always)]
pub(crate) fn step_link_into(links: &mut [AnyLink], number: usize, ask: &Ask, reply: &mut Reply)
    requires inside { number < length links.old }
    requires fits { (link : Kept) → slice_get links.old number ≡ Some link → AskFits (any_rules link).shape ask.now }
    requires early { (link : Kept) → slice_get links.old number ≡ Some link → any_clock link < 2 ^ 61 }
    requires sure { IsArriveOrTick ask.now }
    ensures length { length links.new ≡ length links.old }
    ensures others { (n : ℕ) → n ≢ number → slice_get links.new n ≡ slice_get links.old n }
    ensures same { (link next : Kept) → slice_get links.old number ≡ Some link → slice_get links.new number ≡ Some next → any_rules next ≡ any_rules link }
    ensures legal { (link : Kept) (h : List Entry) → slice_get links.old number ≡ Some link → AnyStands link h → reply.new ≡ reply_to (any_rules link) h ask.now }
    ensures entered { (link next : Kept) (h : List Entry) → slice_get links.old number ≡ Some link → slice_get links.new number ≡ Some next → AnyStands link h → AnyStands next (record { ask = ask.now; reply = reply.new } ∷ h) }
{
    links[number].step_into(ask, reply);
}

// The link of this number makes a tick, in which nothing falls due. Answers its clock before it.
pub(crate) fn rest_link(links: &mut [AnyLink], number: usize) -> u64
    requires inside { number < length links.old }
    requires rests { (link : Kept) → slice_get links.old number ≡ Some link → RestsBy 1 link }
    requires early { (link : Kept) → slice_get links.old number ≡ Some link → any_clock link < 2 ^ 61 }
    ensures length { length links.new ≡ length links.old }
    ensures others { (n : ℕ) → n ≢ number → slice_get links.new n ≡ slice_get links.old n }
    ensures same { (link next : Kept) → slice_get links.old number ≡ Some link → slice_get links.new number ≡ Some next → any_rules next ≡ any_rules link }
    ensures legal { (link : Kept) (h : List Entry) → slice_get links.old number ≡ Some link → AnyStands link h → quiet_reply result ≡ reply_to (any_rules link) h AskTick }
    ensures entered { (link next : Kept) (h : List Entry) → slice_get links.old number ≡ Some link → slice_get links.new number ≡ Some next → AnyStands link h → AnyStands next (record { ask = AskTick; reply = quiet_reply result } ∷ h) }
{
    let link = &mut links[number];
    let clock = link.clock();
    link.rest(1);
    clock
}

// How many ticks these links rest for, at most this many.
pub(crate) fn ticks_at_rest(links: &[AnyLink], most: u64) -> u64
    ensures most { result ≤ most }
    ensures rests { 1 ≤ result → Each (RestsBy result) links.now }
{
    let mut ticks = most;
    for link in links {
        ticks = ticks.min(link.rests_until().saturating_sub(link.clock()));
        if ticks == 0 {
            return 0;
        }
    }
    ticks
}

// Each link makes this many ticks, in which nothing falls due.
pub(crate) fn rest_links(links: &mut [AnyLink], ticks: u64)
    requires rests { Each (RestsBy ticks) links.old }
    requires early { Each (λ link. any_clock link + ticks ≤ 2 ^ 61) links.old }
    ensures { HaveRested ticks links.old links.new }
{
    for link in links.iter_mut() {
        link.rest(ticks);
    }
}
