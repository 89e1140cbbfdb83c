//! The network that a file describes, a scenario or a design, and what is said of a file that describes none.
#![tactic(auto)]

mod cures;
mod fields;
mod network;
mod refused;

pub use network::{BadNetwork, Network, is_scenario, read_network};
pub use refused::{Refused, push_seen, refusal_of};
