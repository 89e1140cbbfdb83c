//! Plans over one link, for tests that are worked out by hand.
//!
//! The link goes from n1 to n2, sends a unit in a tick and packets of at most 4 units, has a propagation of 2 ticks, a buffer of 100 units
//! and levels of 10, 20 and 40 ticks. A channel over it may send packets of at most 2 units, 5 ticks apart and two in any 20.
#![tactic(auto)]

pub mod parts;
pub mod plans;
pub mod scripts;

pub use parts::{
    bounds, channel, link, link_no, name, over_it, request, second_channel, second_request,
};
pub use plans::{moved, opened, plan, plan_of_two};
pub use scripts::{caller, mover, opener, sender};
