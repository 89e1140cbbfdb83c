//! The table of least propagations.
ghost use Rattle.std.specs.Prelude.{◌≡◌, ◌<◌, ◌≤◌, ℕ, [], IfOk};
ghost use Rattle.std.specs.List.{slice_index_or};
ghost use Rattle.route_finder.specs.Rows.{entry, AreRows};
ghost use Rattle.route_finder.specs.Table.{least_prop};
ghost use Rattle.route_finder.specs.Walks.{IsNetwork};

use crate::edge::Edge;
use crate::row::{Row, row_by_none, row_by_one_more};
use net_units::limits::MOST_HOPS;
use std::alloc::{AllocError, Global};
use std::marker::Model;

/// The table of the least propagations from each node to one node, by at most 0, 1, .. 16 links.
///
/// A contract sees a row for each number of links, with an entry for each node.
#[derive(Drop)]
pub struct Least {
    rows: Vec<Row>,
}

impl Model for Least {
    ghost use Rattle.std.specs.Prelude.{ℕ, List, Option};
    ghost use Rattle.route_finder.specs.Rows.{AreRows};

    ghost Value = { List (List (Option ℕ)) };

    ghost view = { λ l. l.rows.items };

    ghost invariant = { λ l. AreRows l.rows.items };
}

impl Least {
    /// The least propagation from the node by at most that many links, in ticks; None where there is no way. At the node to
    /// which the table leads it is 0.
    pub fn at(&self, links: u8, node: u32) -> Option<u64>
        requires links { links ≤ 16 }
        requires node { node < 64 }
        ensures value { result ≡ entry self.now links node }
        ensures valid { AreRows self.now }
    {
        self.row(links)[node as usize]
    }

    // The row for at most that many links.
    pub(crate) fn row(&self, links: u8) -> &Row
        requires { links ≤ 16 }
        ensures value { result.now ≡ slice_index_or self.now links [] }
        ensures valid { AreRows self.now }
    {
        &self.rows[links as usize]
    }

    // The table of the ways to a node.
    pub(crate) fn new(alloc: Global, edges: &[Edge], to: u32) -> Result<Least, AllocError>
        requires to { to < 64 }
        requires network { IsNetwork edges.now }
        ensures { IfOk result (λ least. (links node : ℕ) → links ≤ 16 → entry least links node ≡ least_prop edges.now to links node) }
    {
        let mut rows = Vec::with_capacity(alloc, MOST_HOPS as usize + 1)?;
        rows.push(row_by_none(to))?;
        for links in 0..MOST_HOPS as usize {
            let row = row_by_one_more(edges, &rows[links]);
            rows.push(row)?;
        }
        Ok(Least { rows })
    }
}
