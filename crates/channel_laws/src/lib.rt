//! Laws of one link's channels: what offers tell, to which row a channel's packets belong, what an entry makes of a
//! reservation, and what leaves in a tick.
//!
//! They speak of the histories of `link_steps`, and are what a network over several links counts on, link by link. Each is
//! the contract of a function that does nothing.
#![tactic(auto)]

pub mod laws;
