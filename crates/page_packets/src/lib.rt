//! What became of the packets of a network, for its page.
#![tactic(auto)]

mod packets;
mod playing;

pub use packets::add_packets;
