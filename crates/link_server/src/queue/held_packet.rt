//! A packet that a link has taken, one that has started, and what leaves the link.
ghost use Rattle.std.specs.Prelude.{◌≡◌, ◌^◌, ◌<◌, ◌≤◌, if◌then◌else◌};

use link_steps::{LinkShape, Packet, Sent};
use net_units::{Bounds, ChanNo, Level, LinkNo};

// A packet that the link has taken.
#[derive(Clone, Copy)]
pub(crate) struct HeldPacket {
    // Its arrival number, and that of the first packet of its reservation.
    pub(crate) place: u64,
    pub(crate) lead: u64,
    pub(crate) chan: ChanNo,
    // Its number among the packets of its reservation.
    pub(crate) number: u64,
    // In units.
    pub(crate) size: u32,
    // The ticks at which it arrived and is eligible.
    pub(crate) at: u64,
    pub(crate) eligible: u64,
    // The number of its level, or one more than the last level's for a best-effort packet.
    pub(crate) level: u8,
    // The link after this one, where there is one.
    pub(crate) next: Option<LinkNo>,
    ghost has_size: { 1 ≤ size },
    ghost has_level: { 1 ≤ level },
    ghost has_most: { level ≤ 9 },
}

// A packet that has started, the tick at which it did, and that at which it departs.
#[derive(Clone, Copy)]
pub(crate) struct Running {
    pub(crate) packet: HeldPacket,
    pub(crate) tick: u64,
    pub(crate) leaves: u64,
    ghost later: { tick < leaves },
    ghost early: { leaves < 2 ^ 62 },
}

// What leaves a link at the end of a tick: a packet of a channel, or a best-effort packet, if any.
#[derive(Clone, Copy)]
pub(crate) struct Left {
    pub(crate) sent: Option<Sent>,
    pub(crate) best_sent: bool,
    // The packet, of either kind.
    pub(crate) gone: Option<Gone>,
}

// A packet that has departed, as its row counts it: by its channel and its lead.
#[derive(Clone, Copy)]
pub(crate) struct Gone {
    pub(crate) chan: ChanNo,
    pub(crate) lead: u64,
}

impl Left {
    // No packet leaves.
    pub(crate) const NOTHING: Left = Left {
        sent: None,
        best_sent: false,
        gone: None,
    };
}

impl Running {
    ghost use Rattle.std.specs.Prelude.{None, Some};
    ghost use Rattle.link_steps.specs.BestEffort.{is_best};
    ghost use Rattle.link_steps.specs.Replies.{sent_of};
    ghost use Rattle.link_steps.specs.Service.{leaves_at};
    ghost use Rattle.link_server.specs.Packets.{gone_of, start_in};

    // What leaves a link of this shape when the packet departs.
    pub(crate) fn left(&self, shape: &LinkShape) -> Left
        requires early { self.now.packet.eligible < 2 ^ 61 }
        requires leaves { self.now.leaves ≡ leaves_at shape.now.rate (start_in self.now) }
        ensures sent { result.sent ≡ (if is_best shape.now.bounds (start_in self.now).packet then None else Some (sent_of shape.now (start_in self.now))) }
        ensures best_sent { result.best_sent ≡ is_best shape.now.bounds (start_in self.now).packet }
        ensures gone { result.gone ≡ Some (gone_of (start_in self.now).packet) }
    {
        Left {
            sent: self.sent(shape),
            best_sent: self.is_best(&shape.bounds),
            gone: Some(Gone {
                chan: self.packet.chan,
                lead: self.packet.lead,
            }),
        }
    }

    // Whether it is a best-effort packet.
    fn is_best(&self, bounds: &Bounds) -> bool
        ensures { result ≡ is_best bounds.now (start_in self.now).packet }
    {
        self.packet.level > bounds.len()
    }

    // The packet as it leaves the link, if it is one of a channel.
    fn sent(&self, shape: &LinkShape) -> Option<Sent>
        requires early { self.now.packet.eligible < 2 ^ 61 }
        requires leaves { self.now.leaves ≡ leaves_at shape.now.rate (start_in self.now) }
        ensures { result ≡ (if is_best shape.now.bounds (start_in self.now).packet then None else Some (sent_of shape.now (start_in self.now))) }
    {
        if self.is_best(&shape.bounds) {
            return None;
        }
        let packet = &self.packet;
        let level = Level::new(packet.level)?;
        let bound = u64::from(shape.bounds.at(level));
        let prop = u64::from(shape.prop);
        Some(Sent {
            packet: Packet {
                chan: packet.chan,
                number: packet.number,
                size: packet.size,
                due: packet.eligible + bound + prop,
            },
            at: packet.at,
            eligible: packet.eligible,
            arrives: self.leaves + prop,
            next: packet.next,
        })
    }
}
