//! A network of links behind locks, which any number of threads may step by passes.
//!
//! [`Network::open`] puts each link behind a lock and gives a pass to each actor. A caller sets a channel up, sends on it, moves
//! its packets to another one and tears it down with its pass, and the plane makes its rounds with its own. Each call adds to
//! the pass's own entries exactly the asks that it makes, each with its link's reply. Nothing is claimed of waiting, fairness or
//! deadlock.
#![tactic(auto)]

pub mod calls;
pub mod closing;
pub mod network;
pub mod rounds;
pub mod shifts;

pub use closing::{CloseFault, Closed, Journals, Passes};
pub use network::Network;
