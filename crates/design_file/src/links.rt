//! The links of a plan.
ghost use Rattle.std.specs.Prelude.{◌≡◌, ◌<◌, IfOk, IfSome, OnOk};
ghost use Rattle.net_units.specs.Numbers.{link_number};
ghost use Rattle.design_file.specs.Rounded.{bound_of as ticks_of_level, bounds_in, IsLinkOf, IsShapeOf};
ghost use Rattle.design_file.specs.Planned.{AddsLink, AreLinksOf};

use crate::quotas::quotas_of;
use crate::refusal::{Key, Refusal, Wrong};
use call_script::{LinkEntry, Quotas};
use design_text::DesignLink;
use field_units::{Misfit, Scale, Time};
use link_steps::LinkShape;
use net_units::{Bounds, LinkNo};
use std::alloc::Global;
use traffic_contract::Test;

/// The plan's links, each rounded, in their order.
pub fn link_entries(
    alloc: Global,
    scale: &Scale,
    test: Test,
    links: &[DesignLink],
) -> Result<Vec<LinkEntry>, Refusal>
    ensures { IfOk result (λ entries. AreLinksOf scale.now.tick scale.now.unit links.now entries.items) }
{
    let mut entries = Vec::new(alloc);
    for link in links {
        add_link(alloc, scale, test, link, &mut entries)?;
    }
    Ok(entries)
}

// Adds a link, rounded.
fn add_link(
    alloc: Global,
    scale: &Scale,
    test: Test,
    link: &DesignLink,
    entries: &mut Vec<LinkEntry>,
) -> Result<(), Refusal>
    ensures { OnOk result (AddsLink scale.now.tick scale.now.unit link.now entries.old.items entries.new.items) }
{
    let number = link_at(entries.len()).ok_or(Refusal::Wrong(Wrong::ManyLinks))?;
    let entry = link_entry(alloc, scale, test, number, link)?;
    entries.push(entry)?;
    Ok(())
}

// The link of this number.
fn link_at(number: usize) -> Option<LinkNo>
    ensures number { IfSome result (λ link. link_number link ≡ number) }
    ensures few { IfSome result (λ link. number < 32) }
{
    match u8::try_from(number) {
        Ok(number) => LinkNo::new(number),
        Err(_) => None,
    }
}

/// A link, rounded.
fn link_entry(
    alloc: Global,
    scale: &Scale,
    test: Test,
    number: LinkNo,
    link: &DesignLink,
) -> Result<LinkEntry, Refusal>
    ensures rounded { IfOk result (IsLinkOf scale.now.tick scale.now.unit link.now) }
    ensures number { IfOk result (λ entry. entry.shape.link ≡ number) }
{
    let shape = shape_of(alloc, scale, test, number, link)?;
    let quotas = quotas_of(alloc, scale, &shape.bounds, &link.quotas)?;
    Ok(LinkEntry {
        name: link.name,
        from: link.from,
        to: link.to,
        shape,
        quotas: Quotas::new(quotas),
    })
}

/// The numbers of a link, rounded.
pub(crate) fn shape_of(
    alloc: Global,
    scale: &Scale,
    test: Test,
    number: LinkNo,
    link: &DesignLink,
) -> Result<LinkShape, Refusal>
    ensures rounded { IfOk result (IsShapeOf scale.now.tick scale.now.unit link.now) }
    ensures number { IfOk result (λ shape. shape.link ≡ number) }
{
    let rate = scale
        .rate(link.rate)
        .map_err(|misfit| at(Key::Rate, misfit))?;
    let cap = scale
        .size(link.largest)
        .map_err(|misfit| at(Key::Largest, misfit))?;
    let prop = scale
        .propagation(link.latency)
        .map_err(|misfit| at(Key::Latency, misfit))?;
    let buffer = scale.room(link.buffer);
    let bounds = bounds_of(alloc, scale, &link.levels)?;
    let shape = LinkShape::new(number, rate, cap, prop, buffer, bounds, test, link.best).map_err(
        |_| Refusal::Wrong(Wrong::FirstBound),
    )?;
    Ok(shape)
}

/// A number at a key that has none in the scenario.
fn at(key: Key, misfit: Misfit) -> Refusal {
    Refusal::Misfit { key, misfit }
}

// The bounds of a link's levels, in ticks.
fn bounds_of(alloc: Global, scale: &Scale, levels: &[Time]) -> Result<Bounds, Refusal>
    ensures { IfOk result (λ bounds. bounds ≡ bounds_in scale.now.tick levels.now) }
{
    let ticks = ticks_of(alloc, scale, levels)?;
    match Bounds::new(&ticks) {
        Some(bounds) => Ok(bounds),
        None => Err(Refusal::Wrong(Wrong::Bounds)),
    }
}

// The times of levels, in ticks.
pub(crate) fn ticks_of(alloc: Global, scale: &Scale, levels: &[Time]) -> Result<Vec<u32>, Refusal>
    ensures { IfOk result (λ ticks. ticks.items ≡ bounds_in scale.now.tick levels.now) }
{
    let mut ticks = Vec::new(alloc);
    for level in levels {
        let bound = bound_of(scale, *level)?;
        ticks.push(bound)?;
    }
    Ok(ticks)
}

// The bound of a level, in ticks.
fn bound_of(scale: &Scale, level: Time) -> Result<u32, Refusal>
    ensures { IfOk result (λ bound. bound ≡ ticks_of_level scale.now.tick level) }
{
    let bound = scale
        .bound(level)
        .map_err(|misfit| at(Key::Levels, misfit))?;
    Ok(bound)
}
