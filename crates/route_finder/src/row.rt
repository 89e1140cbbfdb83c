//! Rows of the table. A row has the least propagation from each node by at most a given number of links.
ghost use Rattle.std.specs.Prelude.{◌≡◌, ◌+◌, ◌*◌, ◌^◌, ◌<◌, ◌≤◌, ℕ, Option, Some};
ghost use Rattle.route_finder.specs.Rows.{in_row, IsUpTo};
ghost use Rattle.route_finder.specs.Table.{beyond, by_none, by_one_more, lesser};
ghost use Rattle.route_finder.specs.Walks.{IsNetwork};

use crate::edge::Edge;

/// The nodes of a network: two for each of 32 links.
pub(crate) const MOST_NODES: usize = 64;

/// An entry for each node, in ticks, None where there is no way.
pub(crate) type Row = [Option<u64>; MOST_NODES];

// The row for no link: there is a way from the node itself alone.
pub(crate) fn row_by_none(to: u32) -> Row
    requires { to < 64 }
    ensures entries { (node : ℕ) → in_row result node ≡ by_none to node }
{
    let mut row = [None; MOST_NODES];
    row[to as usize] = Some(0);
    row
}

// The row for one link more. The edges are taken from the last to the first, as the rule folds them.
pub(crate) fn row_by_one_more(edges: &[Edge], before: &Row) -> Row
    requires network { IsNetwork edges.now }
    requires small { IsUpTo (15 * 2 ^ 32) before.now }
    ensures entries { (node : ℕ) → in_row result node ≡ by_one_more (in_row before.now) edges.now node }
    ensures small { (most : ℕ) → IsUpTo most before.now → IsUpTo (most + 2 ^ 32) result }
{
    let mut row = *before;
    for index in (0..edges.len()).rev() {
        let edge = &edges[index];
        let by_edge = further(edge.hop.prop, before[edge.to as usize]);
        row[edge.from as usize] = smaller(by_edge, row[edge.from as usize]);
    }
    row
}

// The smaller of two entries. None counts as no value.
fn smaller(one: Option<u64>, other: Option<u64>) -> Option<u64>
    ensures { result ≡ lesser one other }
{
    match (one, other) {
        (Some(one), Some(other)) => Some(one.min(other)),
        (None, entry) | (entry, None) => entry,
    }
}

// An entry with the propagation of an edge before it.
pub(crate) fn further(prop: u32, rest: Option<u64>) -> Option<u64>
    requires { (ticks : ℕ) → rest ≡ Some ticks → ticks ≤ 15 * 2 ^ 32 }
    ensures { result ≡ beyond prop rest }
{
    rest.map(|ticks| ticks + u64::from(prop))
}
