//! Least routes: the walk of at most 16 links from one node of a network to another whose propagations have the least sum.
//!
//! [`least_route`] reads the walk off a table of least propagations, and hands out that table as a certificate, too.
//! [`check_route`] checks such a certificate by itself: a yes says that no walk has a smaller sum. A search takes
//! 16 * (64 + 32) steps, however many walks there are.
#![tactic(auto)]

mod check;
mod edge;
mod find;
mod laws;
mod least;
mod row;
mod trace;

pub use check::check_route;
pub use edge::Edge;
pub use find::{Found, RouteFault, least_route};
pub use laws::{least_walk_is_least, least_walk_passes_no_link_twice, there_is_one_least_walk};
pub use least::Least;
