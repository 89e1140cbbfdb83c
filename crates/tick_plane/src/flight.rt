//! Packets between two links.
use link_steps::Packet;
use net_units::LinkNo;

/// A packet on its way to the next link of its route.
#[derive(Clone, Copy, Debug, PartialEq, Eq)]
pub struct Flight {
    /// The link that it reaches.
    pub to: LinkNo,
    /// The round in which it does.
    pub round: u64,
    /// The packet.
    pub packet: Packet,
}

// A flight without its round.
#[derive(Clone, Copy, Debug)]
pub(crate) struct OnWay {
    pub(crate) to: LinkNo,
    pub(crate) packet: Packet,
}
