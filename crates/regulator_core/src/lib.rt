//! Regulators of real-time channels.
//!
//! A link has a regulator for each channel (rate-controlled service, Zhang & Ferrari 1993). It holds a packet until
//! its eligible tick: the least tick from its arrival on with which the eligible ticks of the channel's packets so
//! far keep the contract, and under delay-jitter control no earlier than the packet is due.
#![tactic(auto)]

mod regulator;
mod shift;

pub use regulator::Regulator;
pub use shift::shifted_ticks_keep;
