//! A check of a route against its certificate. It takes no memory and trusts nothing of how either was made.
ghost use Rattle.std.specs.Prelude.{◌≡◌, ◌≢◌, ◌+◌, ◌<◌, ◌≤◌, ◌↔◌, ℕ, true, IsTrue, MatchOption, length, slice_index};
ghost use Rattle.hop_reservation.specs.Routes.{IsRoute};
ghost use Rattle.route_finder.specs.Checking.{Checks, Follows, HasRows, IsBy, IsLeastSum};
ghost use Rattle.route_finder.specs.Rows.{in_row};
ghost use Rattle.route_finder.specs.Walks.{IsAmong, IsNetwork};
ghost use Rattle.route_finder.specs.declared.edge.Edge.{Edge};

use crate::edge::Edge;
use crate::find::Found;
use crate::least::Least;
use crate::row::{Row, row_by_none, row_by_one_more};
use hop_reservation::{Hop, Route};
use net_units::limits::MOST_HOPS;
use net_units::{Bounds, Level};

/// Whether the route is a walk from one node to the other with the propagation that is given, each row of the table
/// follows from the row before it, and the propagation is the table's entry for 16 links.
///
/// Where it answers yes, no walk has a smaller sum. It doesn't say that the route is the first of the walks with that sum. A
/// hop is an edge's only where its bounds and its propagation are the edge's too.
pub fn check_route(edges: &[Edge], from: u32, to: u32, found: &Found) -> bool
    requires apart { from ≢ to }
    requires from { from < 64 }
    requires to { to < 64 }
    requires network { IsNetwork edges.now }
    ensures exact { IsTrue result ↔ Checks edges.now from to found.now.route found.now.prop found.now.least }
    ensures least { IsTrue result → IsLeastSum edges.now from to found.now.prop }
{
    is_walk(edges, from, to, &found.route, found.prop)
        && is_table(edges, to, &found.least)
        && found.least.at(MOST_HOPS, from) == Some(found.prop)
}

// Whether the hops are those of a walk with this propagation.
fn is_walk(edges: &[Edge], from: u32, to: u32, route: &Route, prop: u64) -> bool
    requires { IsNetwork edges.now }
    ensures value { IsTrue result ↔ Follows edges.now to prop from 0 route.now }
    ensures valid { IsRoute route.now }
{
    let mut node = from;
    let mut sum = 0;
    for place in 0..route.len() {
        match edge_by(edges, node, &route.hop(place + 1)) {
            Some(edge) => {
                sum += u64::from(edge.hop.prop);
                node = edge.to;
            }
            None => return false,
        }
    }
    node == to && sum == prop
}

// The edge from a node by a hop.
fn edge_by(edges: &[Edge], node: u32, hop: &Hop) -> Option<Edge>
    ensures { MatchOption result
        ((edge : Edge) → IsAmong edges.now edge → IsBy node hop.now edge → ⊥)
        (λ edge. IsAmong edges.now edge × IsBy node hop.now edge) }
{
    for edge in edges {
        if edge.from == node && is_same_hop(&edge.hop, hop) {
            return Some(*edge);
        }
    }
    None
}

// Whether two hops are the same.
fn is_same_hop(one: &Hop, other: &Hop) -> bool
    ensures { IsTrue result ↔ (one.now ≡ other.now) }
{
    one.link.get() == other.link.get()
        && one.prop == other.prop
        && are_same_bounds(&one.bounds, &other.bounds)
}

// Whether these are the same bounds.
fn are_same_bounds(one: &Bounds, other: &Bounds) -> bool
    ensures { IsTrue result ↔ (one.now ≡ other.now) }
{
    if one.len() != other.len() {
        return false;
    }
    for index in 0..one.len() {
        if bound_at(one, index) != bound_at(other, index) {
            return false;
        }
    }
    true
}

// The bound at an index, from 0.
fn bound_at(bounds: &Bounds, index: u8) -> u32
    requires { index < length bounds.now }
    ensures { result ≡ slice_index bounds.now index }
{
    let _levels = bounds.len();
    bounds.at(Level::new(index + 1).unwrap())
}

// Whether each row of the table is made from the one before.
fn is_table(edges: &[Edge], to: u32, least: &Least) -> bool
    requires network { IsNetwork edges.now }
    requires to { to < 64 }
    ensures { IsTrue result ↔ HasRows edges.now to 16 least.now }
{
    if !are_same_rows(least.row(0), &row_by_none(to)) {
        return false;
    }
    for links in 0..MOST_HOPS {
        if !are_same_rows(
            least.row(links + 1),
            &row_by_one_more(edges, least.row(links)),
        ) {
            return false;
        }
    }
    true
}

// Whether two rows have the same entries.
fn are_same_rows(one: &Row, other: &Row) -> bool
    ensures { IsTrue result ↔ ((node : ℕ) → node < 64 → in_row one.now node ≡ in_row other.now node) }
{
    one == other
}
