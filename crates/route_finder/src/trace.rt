//! The least walk, read off the table.
ghost use Rattle.std.specs.Prelude.{◌≡◌, ◌+◌, ◌<◌, ◌≤◌, IfOk, map};
ghost use Rattle.route_finder.specs.Rows.{entry};
ghost use Rattle.route_finder.specs.Trace as trace;
ghost use Rattle.route_finder.specs.Trace.{fewest, goes_on, traced_from};
ghost use Rattle.route_finder.specs.Walks.{hop_of, IsEdge, IsNetwork};

use crate::edge::Edge;
use crate::least::Least;
use crate::row::further;
use hop_reservation::Hop;
use net_units::limits::MOST_HOPS;
use std::alloc::{AllocError, Global};

// The hops of the least walk from a node. At each node the first edge that is on the way is taken.
pub(crate) fn hops_from(
    alloc: Global,
    edges: &[Edge],
    least: &Least,
    from: u32,
) -> Result<Vec<Hop>, AllocError>
    requires from { from < 64 }
    requires network { IsNetwork edges.now }
    ensures { IfOk result (λ hops. hops.items ≡ map hop_of (traced_from (entry least.now) edges.now from)) }
{
    let mut hops = Vec::new(alloc);
    let mut node = from;
    for left in (0..fewest_links(least, from)).rev() {
        match first_step(edges, least, left, node) {
            Some(step) => {
                hops.push(step.hop)?;
                node = step.to;
            }
            None => return Ok(hops),
        }
    }
    Ok(hops)
}

// The fewest links by which the least propagation is reached from a node.
fn fewest_links(least: &Least, from: u32) -> u8
    requires { from < 64 }
    ensures value { result ≡ fewest (λ links. entry least.now links from) 16 }
    ensures most { result ≤ 16 }
{
    let mut links = MOST_HOPS;
    while links > 0 && least.at(links - 1, from) == least.at(links, from) {
        links -= 1;
    }
    links
}

// The first edge from a node on the way, where this many links are left after it.
fn first_step(edges: &[Edge], least: &Least, left: u8, node: u32) -> Option<Edge>
    requires left { left < 16 }
    requires node { node < 64 }
    requires network { IsNetwork edges.now }
    ensures { result ≡ trace.first_step (entry least.now left) (entry least.now (left + 1) node) node edges.now }
{
    for edge in edges {
        if is_on_the_way(edge, least, left, node) {
            return Some(*edge);
        }
    }
    None
}

// Whether an edge is on the way: it begins at the node, and its propagation with the entry at its end is the node's entry.
fn is_on_the_way(edge: &Edge, least: &Least, left: u8, node: u32) -> bool
    requires left { left < 16 }
    requires node { node < 64 }
    requires edge { IsEdge edge.now }
    ensures { result ≡ goes_on (entry least.now left) (entry least.now (left + 1) node) node edge.now }
{
    edge.from == node && further(edge.hop.prop, least.at(left, edge.to)) == least.at(left + 1, node)
}
