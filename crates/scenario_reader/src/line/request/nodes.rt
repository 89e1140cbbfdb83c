//! The nodes of a network, and the least route from one to another.
ghost use Rattle.std.specs.Prelude.{◌≡◌, ◌≤◌, true, false, length, IfOk};
ghost use Rattle.call_script.specs.Rules.{is_named};
ghost use Rattle.scenario_reader.specs.Nodes.{is_node, node_of, edges_of, edge_over, route_between, LinksAreNumbered};

use call_script::LinkEntry;
use hop_reservation::{Hop, Route};
use net_units::{Name, OutOfMemory};
use route_finder::{Edge, RouteFault, least_route};
use std::alloc::Global;

// Whether a link begins or ends at this node.
pub(crate) fn is_node(links: &[LinkEntry], name: &Name) -> bool
    ensures { result ≡ is_node links.now name.now }
{
    links
        .iter()
        .any(|entry| entry.from == *name || entry.to == *name)
}

// The least route from a node to another, None where there is no walk.
pub(crate) fn route_between(
    alloc: Global,
    links: &[LinkEntry],
    from: &Name,
    to: &Name,
) -> Result<Option<Route>, OutOfMemory>
    requires numbered { LinksAreNumbered links.now }
    requires few { length links.now ≤ 32 }
    requires from { is_node links.now from.now ≡ true }
    requires to { is_node links.now to.now ≡ true }
    requires apart { is_named to.now from.now ≡ false }
    ensures { IfOk result (λ route. route ≡ route_between links.now from.now to.now) }
{
    let edges = edges_of(alloc, links)?;
    match least_route(alloc, &edges, node_of(links, from), node_of(links, to)) {
        Ok(found) => Ok(Some(found.route)),
        Err(RouteFault::Unreachable { .. }) => Ok(None),
        Err(RouteFault::Memory) => Err(OutOfMemory),
    }
}

// The links as edges.
fn edges_of(alloc: Global, links: &[LinkEntry]) -> Result<Vec<Edge>, OutOfMemory>
    requires { length links.now ≤ 32 }
    ensures { IfOk result (λ edges. edges.items ≡ edges_of links.now) }
{
    let mut edges = Vec::new(alloc);
    for entry in links {
        edges.push(edge_over(links, entry))?;
    }
    Ok(edges)
}

// A link as an edge.
fn edge_over(links: &[LinkEntry], entry: &LinkEntry) -> Edge
    requires { length links.now ≤ 32 }
    ensures { result ≡ edge_over links.now entry.now }
{
    Edge {
        from: node_of(links, &entry.from),
        to: node_of(links, &entry.to),
        hop: Hop {
            link: entry.shape.link,
            bounds: entry.shape.bounds,
            prop: entry.shape.prop,
        },
    }
}

// The number of a node: the first place of its name among the ends of the links.
pub(crate) fn node_of(links: &[LinkEntry], name: &Name) -> u32
    requires { length links.now ≤ 32 }
    ensures value { result ≡ node_of links.now name.now }
    ensures most { result ≤ 64 }
{
    let mut node = 0;
    for entry in links {
        if entry.from == *name {
            return node;
        }
        if entry.to == *name {
            return node + 1;
        }
        node += 2;
    }
    node
}
