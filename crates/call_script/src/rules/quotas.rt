//! The numbers of quotas, and what those of a link come to.
ghost use Rattle.std.specs.Prelude.{◌≡◌, ◌≤◌, ◌<◌, ◌+◌, ◌^◌, ◌++◌, ◌∷◌, [], length, nat_le};
ghost use Rattle.std.specs.List.{list_all};
ghost use Rattle.net_units.specs.Limits.{most_bound};
ghost use Rattle.net_units.specs.Numbers.{level_number};
ghost use Rattle.traffic_contract.specs.Admission.{total};
ghost use Rattle.link_steps.specs.Split.{level_part, buffer_part};
ghost use Rattle.call_script.specs.Draft.{parts_in};
ghost use Rattle.call_script.specs.Groups.{quota_in_range, quotas_are_in_range, level_fits, quotas_fit, quotas_are_fit};
ghost use Rattle.call_script.specs.declared.entries.LinkEntry.{LinkEntry as Linked};

use crate::entries::LinkEntry;
use crate::parts::Parts;
use link_steps::{LinkShape, Quota};
use net_units::Level;
use net_units::limits::{MOST_BOUND, MOST_BUFFER};

impl Parts {
    // Whether the numbers of quotas are in their ranges.
    #[tactic(auto, unfolding(crate::specs::Groups::quotas_are_in_range))]
    pub(crate) fn quotas_are_in_range(&self) -> bool
        ensures { result ≡ quotas_are_in_range (parts_in self.now) }
    {
        links_in_range(&self.links)
    }

    // Whether the quotas of each link together fit it.
    #[tactic(auto, unfolding(crate::specs::Groups::quotas_are_fit))]
    pub(crate) fn quotas_are_fit(&self) -> bool
        ensures { result ≡ quotas_are_fit (parts_in self.now) }
    {
        links_fit(&self.links)
    }
}

fn links_in_range(links: &[LinkEntry]) -> bool
    ensures { result ≡ list_all (λ (entry : Linked). list_all quota_in_range entry.quotas) links.now }
{
    links
        .iter()
        .all(|entry| are_in_range(entry.quotas.as_slice()))
}

fn are_in_range(quotas: &[Quota]) -> bool
    ensures { result ≡ list_all quota_in_range quotas.now }
{
    quotas.iter().all(|quota| quota_in_range(quota))
}

fn quota_in_range(quota: &Quota) -> bool
    ensures { result ≡ quota_in_range quota.now }
{
    quota.buffer <= MOST_BUFFER && loads_in_range(&quota.levels)
}

fn loads_in_range(loads: &[u32]) -> bool
    ensures { result ≡ list_all (λ load. nat_le load most_bound) loads.now }
{
    loads.iter().all(|load| *load <= MOST_BOUND)
}

fn links_fit(links: &[LinkEntry]) -> bool
    ensures { result ≡ list_all (λ (entry : Linked). quotas_fit entry.shape entry.quotas) links.now }
{
    links
        .iter()
        .all(|entry| quotas_fit(&entry.shape, entry.quotas.as_slice()))
}

fn quotas_fit(shape: &LinkShape, quotas: &[Quota]) -> bool
    ensures { result ≡ quotas_fit shape.now quotas.now }
{
    for index in 0..shape.bounds.len() {
        if !level_fits(shape, quotas, level_at(index + 1)) {
            return false;
        }
    }
    buffer_fits(0, quotas, shape.buffer)
}

// Whether these quotas and one more together fit a link.
pub(crate) fn fit_with(shape: &LinkShape, quotas: &[Quota], more: &Quota) -> bool
    ensures { result ≡ quotas_fit shape.now (quotas.now ++ more.now ∷ []) }
{
    for index in 0..shape.bounds.len() {
        if !level_fits_with(shape, quotas, more, level_at(index + 1)) {
            return false;
        }
    }
    buffer_fits(u64::from(more.buffer), quotas, shape.buffer)
}

// Whether the quotas of a level leave room for the blocking within its bound.
fn level_fits(shape: &LinkShape, quotas: &[Quota], level: Level) -> bool
    requires { level_number level ≤ length shape.now.bounds }
    ensures { result ≡ level_fits shape.now quotas.now (level_number level) }
{
    loads_fit(
        u64::from(shape.blocking()),
        quotas,
        level,
        shape.bounds.at(level),
    )
}

// The same with one more quota.
fn level_fits_with(shape: &LinkShape, quotas: &[Quota], more: &Quota, level: Level) -> bool
    requires { level_number level ≤ length shape.now.bounds }
    ensures { result ≡ level_fits shape.now (quotas.now ++ more.now ∷ []) (level_number level) }
{
    let first = u64::from(shape.blocking()) + u64::from(load_at(more, level));
    loads_fit(first, quotas, level, shape.bounds.at(level))
}

// What the quota has at a level.
fn load_at(quota: &Quota, level: Level) -> u32
    ensures { result ≡ level_part (level_number level) quota.now }
{
    quota.levels[usize::from(level.get()) - 1]
}

// Whether this load, and what the quotas have of a level, are together within a bound.
fn loads_fit(first: u64, quotas: &[Quota], level: Level, bound: u32) -> bool
    requires { first < 2 ^ 33 }
    ensures { result ≡ nat_le (first + total (level_part (level_number level)) quotas.now) bound }
{
    let mut sum = first;
    for quota in quotas {
        sum += u64::from(load_at(quota, level));
        if sum > u64::from(bound) {
            return false;
        }
    }
    sum <= u64::from(bound)
}

// The level of this number.
fn level_at(number: u8) -> Level
    requires least { 1 ≤ number }
    requires most { number ≤ 8 }
    ensures { level_number result ≡ number }
{
    match Level::new(number) {
        Some(level) => level,
        None => unreachable!(),
    }
}

// Whether this many units, and those of the quotas, are together within those of the buffer.
fn buffer_fits(first: u64, quotas: &[Quota], units: u32) -> bool
    requires { first < 2 ^ 33 }
    ensures { result ≡ nat_le (first + total buffer_part quotas.now) units }
{
    let mut sum = first;
    for quota in quotas {
        sum += u64::from(quota.buffer);
        if sum > u64::from(units) {
            return false;
        }
    }
    sum <= u64::from(units)
}
