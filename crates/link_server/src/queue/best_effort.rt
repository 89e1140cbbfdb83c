//! The best-effort packets of a link.
ghost use Rattle.std.specs.Prelude.{◌≡◌, ◌≤◌, if◌then◌else◌};
ghost use Rattle.link_steps.specs.BestEffort.{best_arrival, is_best};
ghost use Rattle.link_server.specs.Packets.{arrival_in};

use crate::queue::held_packet::HeldPacket;
use net_units::{Bounds, ChanNo};

// A best-effort packet of `size` units, with this arrival number, that arrives in this tick.
pub(crate) fn best_packet(bounds: &Bounds, place: u64, size: u32, clock: u64) -> HeldPacket
    requires size { 1 ≤ size }
    ensures { arrival_in result ≡ best_arrival bounds.now place size clock }
{
    // It is of no channel, and the rules look at none.
    let chan = ChanNo::new(0).unwrap();
    HeldPacket {
        place,
        lead: place,
        chan,
        number: 0,
        size,
        at: clock,
        eligible: clock,
        level: bounds.len() + 1,
        next: None,
    }
}

// How many best-effort packets it is: one or none.
pub(crate) fn best_in(packet: &HeldPacket, bounds: &Bounds) -> u64
    ensures value { result ≡ (if is_best bounds.now (arrival_in packet.now) then 1 else 0) }
    ensures most { result ≤ 1 }
{
    if packet.level > bounds.len() { 1 } else { 0 }
}
