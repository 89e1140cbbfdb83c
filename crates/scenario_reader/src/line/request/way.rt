//! The way of a request: the links of its route, or the nodes between which it is to be found.
ghost use Rattle.std.specs.Prelude.{◌≡◌, ◌≤◌, ◌<◌, Some, true, option_map, unwrap_or, length, []};
ghost use Rattle.std.specs.List.{slice_get};
ghost use Rattle.call_script.specs.Rules.{meets, is_joined};
ghost use Rattle.line_forms.specs.Values.{number_at};
ghost use Rattle.scenario_reader.specs.Causes.{Judges, JudgesWithRoom, unless};
ghost use Rattle.scenario_reader.specs.Entries.{hop_of as hop_over};
ghost use Rattle.scenario_reader.specs.Nodes.{is_node, route_between};
ghost use Rattle.scenario_reader.specs.line.Request.{AreLinksThere, AreNodes, is_found, nodes_said, nodes_rule, found_said, between_rule, is_way, way_rule, routed_said, hops_said};

use crate::cause::{LineCause, LineFault};
use crate::draft::Draft;
use crate::line::request::hops::Hops;
use crate::line::request::is_found;
use crate::line::request::nodes::route_between;
use crate::values::require;
use call_script::LinkEntry;
use hop_reservation::{Hop, Route};
use line_forms::{FewValues, Values};
use net_units::{LinkNo, Name};
use std::alloc::Global;

// The route of a request, and the nodes between which it was found, if it was.
#[derive(Clone, Copy)]
pub(crate) struct Routed {
    pub(crate) route: Route,
    pub(crate) found: Option<(Name, Name)>,
}

impl Draft {
    // The route over the links of a line, or the least one between its two nodes.
    pub(crate) fn route_said(&self, alloc: Global, values: &Values) -> Result<Routed, LineFault>
        requires links { AreLinksThere self.now.links values.now.run }
        requires nodes { is_found values.now ≡ true → AreNodes self.now.links (nodes_said values.now) }
        ensures { JudgesWithRoom result (way_rule self.now values.now) (routed_said self.now values.now) }
    {
        if is_found(values) {
            self.between_said(alloc, values)
        } else {
            let hops = self.hops_said(&values.run);
            let route = self.judge_way(hops.as_slice())?;
            Ok(Routed { route, found: None })
        }
    }

    // The hops over the links of a route.
    fn hops_said(&self, run: &FewValues) -> Hops
        requires some { 1 ≤ length run.now }
        requires links { AreLinksThere self.now.links run.now }
        ensures { result ≡ hops_said self.now.links run.now }
    {
        let values = run.as_slice();
        let mut hops = Hops::new(self.hop_said(run, 0));
        for place in 1..values.len() {
            hops.push(self.hop_said(run, place));
        }
        hops
    }

    // The hop over the link at a place of a route.
    fn hop_said(&self, run: &FewValues, place: usize) -> Hop
        requires within { place < length run.now }
        requires links { AreLinksThere self.now.links run.now }
        ensures { option_map hop_over (slice_get self.now.links (number_at run.now place)) ≡ Some result }
    {
        hop_over(&self.links[run.number(place) as usize])
    }

    // The least route between the two nodes of a line.
    fn between_said(&self, alloc: Global, values: &Values) -> Result<Routed, LineFault>
        requires { AreNodes self.now.links (nodes_said values.now) }
        ensures { JudgesWithRoom result (nodes_rule self.now (nodes_said values.now)) (record { route = found_said self.now (nodes_said values.now); found = nodes_said values.now }) }
    {
        let (Some(from), Some(to)) = (values.ones.name(1), values.ones.name(2)) else {
            return Err(LineFault::Refused(LineCause::Route));
        };
        let route = self.judge_found(alloc, &from, &to)?;
        Ok(Routed {
            route,
            found: Some((from, to)),
        })
    }

    // The least route between two nodes.
    fn judge_found(&self, alloc: Global, from: &Name, to: &Name) -> Result<Route, LineFault>
        requires from { is_node self.now.links from.now ≡ true }
        requires to { is_node self.now.links to.now ≡ true }
        ensures { JudgesWithRoom result (between_rule self.now from.now to.now) (unwrap_or (route_between self.now.links from.now to.now) []) }
    {
        require(from != to, LineCause::Route)?;
        let route = route_between(alloc, &self.links, from, to)?;
        Ok(route.ok_or(LineCause::Reach)?)
    }

    // The route of these hops, on which no link stands twice, and each begins at the node where the one before it ends.
    fn judge_way(&self, hops: &[Hop]) -> Result<Route, LineCause>
        ensures { Judges result (unless (is_way self.now hops.now) LineCause.Route) hops.now }
    {
        let Ok(route) = Route::new(hops) else {
            return Err(LineCause::Route);
        };
        require(self.is_joined(&route), LineCause::Route)?;
        Ok(route)
    }

    // Whether each hop begins at the node where the one before it ends.
    fn is_joined(&self, route: &Route) -> bool
        ensures { result ≡ is_joined self.now.links route.now }
    {
        for index in 0..route.len() - 1 {
            if !self.meets(route.hop(index + 1).link, route.hop(index + 2).link) {
                return false;
            }
        }
        true
    }

    // Whether one link ends at the node where the other begins.
    fn meets(&self, link: LinkNo, next: LinkNo) -> bool
        ensures { result ≡ meets self.now.links link next }
    {
        let end = match self.links.get(usize::from(link.get())) {
            Some(entry) => entry.to.as_bytes(),
            None => &[],
        };
        let start = match self.links.get(usize::from(next.get())) {
            Some(entry) => entry.from.as_bytes(),
            None => &[],
        };
        end == start
    }
}

// The hop over a link.
fn hop_over(entry: &LinkEntry) -> Hop
    ensures { result ≡ hop_over entry.now }
{
    Hop {
        link: entry.shape.link,
        bounds: entry.shape.bounds,
        prop: entry.shape.prop,
    }
}
