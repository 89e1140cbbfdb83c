//! The plan of a run.
ghost use Rattle.std.specs.Prelude.{◌≡◌, ◌<◌, ℕ, IfOk, IfErr, Some, length};
ghost use Rattle.std.specs.List.{slice_get};
ghost use Rattle.net_units.specs.Numbers.{link_number};
ghost use Rattle.call_script.specs.Broken.{rule_broken};
ghost use Rattle.call_script.specs.Parts.{ArePlanned, parts_with};
ghost use Rattle.call_script.specs.Plans.{IsPlan};
ghost use Rattle.call_script.specs.Splits.{group_behind, channel_groups, groups_in, split_if};
ghost use Rattle.link_steps.specs.Split.{AreQuotas};
ghost use Rattle.call_script.specs.declared.entries.LinkEntry.{LinkEntry as Linked};

use crate::entries::{CallerEntry, LinkEntry, RequestEntry};
use crate::parts::Parts;
use crate::version::Version;
use link_steps::Split;
use net_units::{LinkNo, Name, OutOfMemory};
use std::alloc::Global;
use std::marker::Model;

/// Why parts don't make a plan.
#[derive(Clone, Copy, Debug, PartialEq, Eq)]
pub enum BadPlan {
    /// Out of memory.
    Memory,
    /// The least rule that they break, by the number of its cause in the scenario's language: 1 a link's test that isn't
    /// its version's, or a form that its version doesn't have; 2 no link; 6 a name known already, or a second quota of a
    /// group on a link; 7 a link, a request or a group that isn't there; 8 a number out of its range; 9 too many links, groups,
    /// callers or requests; 12 a route that isn't joined; 13 a request closed or left above; 14 too large a load; 19 best-effort
    /// packets at a link that takes none; 23 quotas that together don't fit their link; 24 a move between requests that don't
    /// agree, or to a request in use.
    Broken { rule: u8 },
}

impl From<OutOfMemory> for BadPlan {
    ghost use Rattle.std.specs.Prelude.{◌≡◌};
    ghost use Rattle.call_script.specs.declared.plan.BadPlan.TheVariants.{Memory};

    ghost from_gives = { λ _ bad. bad ≡ Memory };

    fn from(_wanted: OutOfMemory) -> BadPlan {
        BadPlan::Memory
    }
}

/// The plan of a run: the links of a network, how they are split between groups, the requests for channels, the callers with their
/// groups and operations, and how many rounds the plane makes beside the callers and after them. It keeps the rules of the scenario's
/// language.
///
/// A contract sees the record of its parts.
#[derive(Drop)]
pub struct Plan {
    parts: Parts,
}

impl Model for Plan {
    ghost use Rattle.call_script.specs.Parts.{PlanParts};
    ghost use Rattle.call_script.specs.Plans.{IsPlan};
    ghost use Rattle.call_script.specs.Draft.{parts_in};

    ghost Value = { PlanParts };

    ghost view = { λ p. parts_in p.parts };

    ghost invariant = { λ p. IsPlan (parts_in p.parts) };
}

impl Plan {
    /// A plan of these parts, or the least rule that they break. Links and requests have the numbers of their places, from
    /// 0, and groups from 1. The requests stand in the order in which the callers open them, each opened once, by its caller.
    /// A hop has the bounds and the propagation of its link. A quota has no load after the last level of its link.
    pub fn new(
        alloc: Global,
        version: Version,
        links: Vec<LinkEntry>,
        groups: Vec<Name>,
        requests: Vec<RequestEntry>,
        callers: Vec<CallerEntry>,
        rounds: u64,
        tail: u64,
    ) -> Result<Plan, BadPlan>
        requires { ArePlanned (parts_with version links.items groups.items requests.items callers.items rounds tail) }
        ensures value { IfOk result (λ plan. plan ≡ parts_with version links.items groups.items requests.items callers.items rounds tail) }
        ensures kept { IfOk result IsPlan }
        ensures refusal { IfErr result (λ bad. (rule : ℕ) → bad ≡ BadPlan.Broken rule → rule_broken (parts_with version links.items groups.items requests.items callers.items rounds tail) ≡ Some rule) }
    {
        let parts = Parts {
            version,
            links,
            groups,
            requests,
            callers,
            rounds,
            tail,
        };
        match parts.broken_rule(alloc)? {
            Some(rule) => Err(BadPlan::Broken { rule }),
            None => Ok(Plan::of_kept(
                parts.version,
                parts.links,
                parts.groups,
                parts.requests,
                parts.callers,
                parts.rounds,
                parts.tail,
            )),
        }
    }

    /// The plan of these parts, which keep the rules. Nothing is tested.
    pub fn of_kept(
        version: Version,
        links: Vec<LinkEntry>,
        groups: Vec<Name>,
        requests: Vec<RequestEntry>,
        callers: Vec<CallerEntry>,
        rounds: u64,
        tail: u64,
    ) -> Plan
        requires { IsPlan (parts_with version links.items groups.items requests.items callers.items rounds tail) }
        ensures value { result ≡ parts_with version links.items groups.items requests.items callers.items rounds tail }
        ensures kept { IsPlan result }
    {
        Plan {
            parts: Parts {
                version,
                links,
                groups,
                requests,
                callers,
                rounds,
                tail,
            },
        }
    }

    /// The version of the scenario's language.
    pub fn version(&self) -> Version
        ensures { result ≡ self.now.version }
    {
        self.parts.version
    }

    /// The links, in the order of their numbers.
    pub fn links(&self) -> &[LinkEntry]
        ensures value { result.now ≡ self.now.links }
        ensures valid { IsPlan self.now }
    {
        self.parts.links.as_slice()
    }

    /// The names of the groups, in the order of their numbers, which begin with 1.
    pub fn groups(&self) -> &[Name]
        ensures value { result.now ≡ self.now.groups }
        ensures valid { IsPlan self.now }
    {
        self.parts.groups.as_slice()
    }

    /// The requests, in the order of their channels' numbers.
    pub fn requests(&self) -> &[RequestEntry]
        ensures value { result.now ≡ self.now.requests }
        ensures valid { IsPlan self.now }
    {
        self.parts.requests.as_slice()
    }

    /// The callers, in the order of their actors' numbers.
    pub fn callers(&self) -> &[CallerEntry]
        ensures value { result.now ≡ self.now.callers }
        ensures valid { IsPlan self.now }
    {
        self.parts.callers.as_slice()
    }

    /// How many rounds the plane makes beside the callers, up to 524,288.
    pub fn rounds(&self) -> u64
        ensures value { result ≡ self.now.rounds }
        ensures valid { IsPlan self.now }
    {
        self.parts.rounds
    }

    /// How many rounds the plane makes after the callers, up to 524,288.
    pub fn tail(&self) -> u64
        ensures value { result ≡ self.now.tail }
        ensures valid { IsPlan self.now }
    {
        self.parts.tail
    }

    /// How a link of the plan is split: by its quotas, with the group of each channel, which is that of the caller that opens it.
    /// None exactly where the link has no quotas. An `Err` comes only for want of memory.
    pub fn split(&self, alloc: Global, link: LinkNo) -> Result<Option<Split>, OutOfMemory>
        requires { link_number link < length self.now.links }
        ensures split { IfOk result (λ split. (entry : Linked) → slice_get self.now.links (link_number link) ≡ Some entry → split ≡ split_if (groups_in self.now) entry.quotas) }
        ensures valid { IsPlan self.now }
    {
        let entry = &self.parts.links[usize::from(link.get())];
        split_of(alloc, entry, &self.parts.callers, &self.parts.requests)
    }
}

// How a link is split, None where it has no quotas.
fn split_of(
    alloc: Global,
    entry: &LinkEntry,
    callers: &[CallerEntry],
    requests: &[RequestEntry],
) -> Result<Option<Split>, OutOfMemory>
    requires { AreQuotas entry.now.shape.bounds entry.now.quotas }
    ensures { IfOk result (λ split. split ≡ split_if (channel_groups callers.now requests.now) entry.now.quotas) }
{
    if entry.quotas.as_slice().is_empty() {
        return Ok(None);
    }
    let groups = channel_groups(alloc, callers, requests)?;
    let split = Split::new(alloc, entry.shape.bounds, entry.quotas.as_slice(), &groups)?;
    Ok(Some(split))
}

// The group of each channel: that of the caller that opens it.
fn channel_groups(
    alloc: Global,
    callers: &[CallerEntry],
    requests: &[RequestEntry],
) -> Result<Vec<u8>, OutOfMemory>
    ensures { IfOk result (λ groups. groups.items ≡ channel_groups callers.now requests.now) }
{
    Ok(
        requests
            .iter()
            .map(|entry| group_behind(callers, entry))
            .collect(alloc)?,
    )
}

// The group of the caller of a request.
fn group_behind(callers: &[CallerEntry], entry: &RequestEntry) -> u8
    ensures { result ≡ group_behind callers.now entry.now }
{
    match callers.get(usize::from(entry.caller.get())) {
        Some(caller) => caller.group,
        None => 0,
    }
}
