//! The routes of a plan.
ghost use Rattle.std.specs.Prelude.{◌≡◌, ◌≤◌, IfOk, IfSome, length};
ghost use Rattle.link_steps.specs.Lists.{Each};
ghost use Rattle.call_script.specs.Parts.{FollowsLink};
ghost use Rattle.design_text.specs.declared.design.Way.TheVariants as Way;
ghost use Rattle.std.specs.List.{AllZip};
ghost use Rattle.design_file.specs.Planned.{IsHopOver, IsWay};
ghost use Rattle.scenario_reader.specs.Nodes.{LinksAreNumbered};

use crate::nodes::{is_node, route_between};
use crate::refusal::{Refusal, Wrong};
use call_script::LinkEntry;
use design_text::Way;
use hop_reservation::{Hop, Route};
use net_units::Name;
use std::alloc::Global;

/// The route of a stream's way.
pub fn route_of(alloc: Global, links: &[LinkEntry], way: &Way) -> Result<Route, Refusal>
    requires numbered { LinksAreNumbered links.now }
    requires few { length links.now ≤ 32 }
    ensures { IfOk result (λ route. IsWay links.now way.now route) }
{
    match way {
        Way::Over(names) => {
            let route = route_over(alloc, links, names)?;
            Ok(route)
        }
        Way::Between(from, to) => {
            let route = route_found(alloc, links, from, to)?;
            Ok(route)
        }
    }
}

// The least route from one node to another.
fn route_found(alloc: Global, links: &[LinkEntry], from: &Name, to: &Name) -> Result<Route, Refusal>
    requires numbered { LinksAreNumbered links.now }
    requires few { length links.now ≤ 32 }
    ensures { IfOk result (λ route. IsWay links.now (Way.Between from.now to.now) route) }
{
    if from == to || !is_node(links, from) || !is_node(links, to) {
        return Err(Refusal::Wrong(Wrong::Unreached));
    }
    match route_between(alloc, links, from, to)? {
        Some(route) => Ok(route),
        None => Err(Refusal::Wrong(Wrong::Unreached)),
    }
}

// The route over the links of these names.
fn route_over(alloc: Global, links: &[LinkEntry], names: &[Name]) -> Result<Route, Refusal>
    requires { LinksAreNumbered links.now }
    ensures over { IfOk result (λ route. AllZip (IsHopOver links.now) names.now route) }
    ensures follows { IfOk result (λ route. Each (FollowsLink links.now) route) }
{
    let mut hops = Vec::new(alloc);
    for name in names {
        let hop = hop_over(links, name).ok_or(Refusal::Wrong(Wrong::UnknownLink))?;
        hops.push(hop)?;
    }
    match Route::new(&hops) {
        Ok(route) => Ok(route),
        Err(_) => Err(Refusal::Wrong(Wrong::Twice)),
    }
}

// The hop over the link of this name.
fn hop_over(links: &[LinkEntry], name: &Name) -> Option<Hop>
    requires { LinksAreNumbered links.now }
    ensures { IfSome result (IsHopOver links.now name.now) }
{
    for entry in links {
        if entry.name == *name {
            return Some(Hop {
                link: entry.shape.link,
                bounds: entry.shape.bounds,
                prop: entry.shape.prop,
            });
        }
    }
    None
}
