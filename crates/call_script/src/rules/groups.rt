//! Groups of callers, and the quotas of one group.
ghost use Rattle.std.specs.Prelude.{◌≡◌, IfOk};
ghost use Rattle.std.specs.List.{list_all};
ghost use Rattle.call_script.specs.Draft.{parts_in};
ghost use Rattle.call_script.specs.Groups.{quotas_have_version, group_has_version, groups_have_version, have_own_groups, groups_have_names, quota_is_there, group_is_there, groups_are_there, groups_are_few};
ghost use Rattle.call_script.specs.declared.entries.CallerEntry.{CallerEntry as Asking};
ghost use Rattle.call_script.specs.declared.entries.LinkEntry.{LinkEntry as Linked};

use crate::entries::{CallerEntry, LinkEntry};
use crate::parts::Parts;
use crate::rules::names;
use crate::version::Version;
use link_steps::Quota;
use net_units::{Name, OutOfMemory};
use std::alloc::Global;
use std::collections::HashSet;

// The most groups that a plan may have.
const MOST_GROUPS: usize = 4;

impl Parts {
    // Whether only a version that has groups has them, quotas, and callers of groups.
    #[tactic(auto, unfolding(crate::specs::Groups::groups_have_version))]
    pub(crate) fn groups_have_version(&self) -> bool
        ensures { result ≡ groups_have_version (parts_in self.now) }
    {
        (self.groups.is_empty() || self.version.has_groups())
            && links_have_version(self.version, &self.links)
            && callers_have_version(self.version, &self.callers)
    }

    // Whether no two groups have one name, and no two quotas of a link are of one group.
    #[tactic(auto, unfolding(crate::specs::Groups::groups_have_names))]
    pub(crate) fn groups_have_names(&self, alloc: Global) -> Result<bool, OutOfMemory>
        ensures { IfOk result (λ kept. kept ≡ groups_have_names (parts_in self.now)) }
    {
        Ok(names::are_distinct(alloc, &self.groups)? && links_have_own_groups(alloc, &self.links)?)
    }

    // Whether the groups of callers and quotas are there.
    #[tactic(auto, unfolding(crate::specs::Groups::groups_are_there))]
    pub(crate) fn groups_are_there(&self) -> bool
        ensures { result ≡ groups_are_there (parts_in self.now) }
    {
        quotas_are_there(&self.groups, &self.links)
            && callers_are_there(&self.groups, &self.callers)
    }

    // Whether there are no more groups than are allowed.
    #[tactic(auto, unfolding(crate::specs::Groups::groups_are_few))]
    pub(crate) fn groups_are_few(&self) -> bool
        ensures { result ≡ groups_are_few (parts_in self.now) }
    {
        self.groups.len() <= MOST_GROUPS
    }
}

fn links_have_version(version: Version, links: &[LinkEntry]) -> bool
    ensures { result ≡ list_all (quotas_have_version version) links.now }
{
    links
        .iter()
        .all(|entry| quotas_have_version(version, entry))
}

fn quotas_have_version(version: Version, entry: &LinkEntry) -> bool
    ensures { result ≡ quotas_have_version version entry.now }
{
    entry.quotas.as_slice().is_empty() || version.has_groups()
}

fn callers_have_version(version: Version, callers: &[CallerEntry]) -> bool
    ensures { result ≡ list_all (λ (caller : Asking). group_has_version version caller.group) callers.now }
{
    callers
        .iter()
        .all(|caller| group_has_version(version, caller.group))
}

fn group_has_version(version: Version, group: u8) -> bool
    ensures { result ≡ group_has_version version group }
{
    group == 0 || version.has_groups()
}

fn links_have_own_groups(alloc: Global, links: &[LinkEntry]) -> Result<bool, OutOfMemory>
    ensures { IfOk result (λ own. own ≡ list_all (λ (entry : Linked). have_own_groups entry.quotas) links.now) }
{
    for entry in links {
        if !have_own_groups(alloc, entry.quotas.as_slice())? {
            return Ok(false);
        }
    }
    Ok(true)
}

// Whether no two quotas are of one group.
fn have_own_groups(alloc: Global, quotas: &[Quota]) -> Result<bool, OutOfMemory>
    ensures { IfOk result (λ own. own ≡ have_own_groups quotas.now) }
{
    let mut seen = HashSet::new(alloc);
    for quota in quotas {
        if !seen.insert(quota.group)? {
            return Ok(false);
        }
    }
    Ok(true)
}

fn quotas_are_there(groups: &[Name], links: &[LinkEntry]) -> bool
    ensures { result ≡ list_all (λ (entry : Linked). list_all (quota_is_there groups.now) entry.quotas) links.now }
{
    links
        .iter()
        .all(|entry| are_there(groups, entry.quotas.as_slice()))
}

fn are_there(groups: &[Name], quotas: &[Quota]) -> bool
    ensures { result ≡ list_all (quota_is_there groups.now) quotas.now }
{
    quotas.iter().all(|quota| 1 <= quota.group && usize::from(quota.group) <= groups.len())
}

fn callers_are_there(groups: &[Name], callers: &[CallerEntry]) -> bool
    ensures { result ≡ list_all (λ (caller : Asking). group_is_there groups.now caller.group) callers.now }
{
    callers
        .iter()
        .all(|caller| usize::from(caller.group) <= groups.len())
}
