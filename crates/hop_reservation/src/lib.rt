//! The route of a channel, and what its hops have offered.
//!
//! A channel is established in one round trip (after the Tenet suite, Banerjea, Ferrari et al. 1996). On the way forward
//! each hop of its route offers a level. The destination needs the sum of what was offered, and each hop the reach of
//! the hop before. Nothing here takes memory. Times are in ticks.
#![tactic(auto)]

mod itinerary;
mod route;

pub use itinerary::{Itinerary, Offer};
pub use route::{BadRoute, Hop, Route};
