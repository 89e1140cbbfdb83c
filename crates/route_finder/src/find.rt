//! The least route between two nodes.
ghost use Rattle.std.specs.Prelude.{◌≡◌, ◌≢◌, ◌<◌, MatchResult};
ghost use Rattle.route_finder.specs.Finding.{Finds, Fails};
ghost use Rattle.route_finder.specs.Walks.{IsNetwork};

use crate::edge::Edge;
use crate::least::Least;
use crate::trace::hops_from;
use hop_reservation::Route;
use net_units::limits::MOST_HOPS;
use std::alloc::{AllocError, Global};

/// The least route from one node to another, with its certificate.
#[derive(Drop)]
pub struct Found {
    /// The hops of the least walk.
    pub route: Route,
    /// The sum of their propagations, in ticks.
    pub prop: u64,
    /// The certificate: the table that the walk was read off.
    pub least: Least,
}

/// Why no route is found.
#[derive(Drop)]
pub enum RouteFault {
    /// Out of memory.
    Memory,
    /// No walk of at most 16 links leads from the one node to the other.
    Unreachable {
        /// The table that shows it.
        least: Least,
    },
}

impl From<AllocError> for RouteFault {
    ghost use Rattle.std.specs.Prelude.{◌≡◌};
    ghost use Rattle.route_finder.specs.declared.find.RouteFault.TheVariants.{Memory};

    ghost from_gives = { λ _ fault. fault ≡ Memory };

    fn from(_error: AllocError) -> RouteFault {
        RouteFault::Memory
    }
}

/// The least walk from one node to another, as a route.
///
/// Walks of 1 to 16 links are compared by the sum of their propagations, then by the number of their links, and then by their
/// lists of link numbers. `Unreachable` comes exactly where there is no walk. The edges are in link order, and nodes are
/// below 64.
pub fn least_route(alloc: Global, edges: &[Edge], from: u32, to: u32) -> Result<Found, RouteFault>
    requires apart { from ≢ to }
    requires from { from < 64 }
    requires to { to < 64 }
    requires network { IsNetwork edges.now }
    ensures { MatchResult result (λ found. Finds edges.now from to found) (λ fault. Fails edges.now from to fault) }
{
    let least = Least::new(alloc, edges, to)?;
    let Some(prop) = least.at(MOST_HOPS, from) else {
        return Err(RouteFault::Unreachable { least });
    };
    let hops = hops_from(alloc, edges, &least, from)?;
    match Route::new(&hops) {
        Ok(route) => Ok(Found { route, prop, least }),
        Err(_) => unreachable!(),
    }
}
