//! What the caller of a channel asks of the hops of its route, from its request to its end.
//!
//! A channel is established in one round trip and released by a message that goes forward (after the Tenet suite, Banerjea,
//! Ferrari et al. 1996). What is asked next follows from the replies so far. Nothing here takes memory. Times are in
//! ticks, sizes in units.
#![tactic(auto)]

pub mod laws;
pub mod request;
pub mod setup;
pub mod teardown;
pub mod verdict;

pub use link_steps::Unexpected;
pub use request::{Control, Request};
pub use setup::Setup;
pub use teardown::Teardown;
pub use verdict::{Deny, Verdict};
