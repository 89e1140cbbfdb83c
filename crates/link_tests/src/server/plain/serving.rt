//! A tick of a plain link.
use super::PlainLink;
use super::row::bound_at;
use link_steps::{Packet as Leaving, Reply, Sent};
use net_units::{ChanNo, Level, LinkNo};
use std::test::Fail;

// A packet here. A best-effort packet has level 4 and is of no row, which is told by the number 0.
#[derive(Clone, Copy)]
pub(super) struct Packet {
    // Its arrival number, and the number of its row.
    pub(super) place: u64,
    pub(super) row: u64,
    pub(super) chan: ChanNo,
    pub(super) number: u64,
    pub(super) size: u32,
    pub(super) at: u64,
    pub(super) eligible: u64,
    pub(super) level: u8,
    pub(super) next: Option<LinkNo>,
}

const BEST_EFFORT: u8 = 4;

// Whether the first packet goes before the second.
fn goes_before(first: &Packet, second: &Packet) -> bool {
    let first = (first.level, first.eligible, first.place);
    first < (second.level, second.eligible, second.place)
}

impl PlainLink {
    pub(super) fn tick(&mut self) -> Result<Reply, Fail> {
        let clock = self.clock;
        let bounds = self.bounds;
        self.rows.retain(|row| !row.has_ended(&bounds, clock));
        let full = self.take_source_packets()?;
        let best_lost = self.take_best()?;
        let left = self.serve();
        self.clock = clock.saturating_add(1);
        Ok(Reply::Ticked {
            clock,
            full,
            sent: self.sent(left)?,
            best_sent: left.is_some_and(|packet| packet.0.level == BEST_EFFORT),
            best_lost,
        })
    }

    // The rows take the packets that are planned for this tick. The answer is how many found no slot.
    fn take_source_packets(&mut self) -> Result<u32, Fail> {
        let mut full = 0_u32;
        for place in 0..self.rows.len() {
            if self.take_source_packet(place)? {
                full = full.saturating_add(1);
            }
        }
        Ok(full)
    }

    // The row at this place takes the one that is planned for it, if any. The answer is whether that found no slot.
    fn take_source_packet(&mut self, place: usize) -> Result<bool, Fail> {
        let clock = self.clock;
        if place >= self.rows.len() {
            return Err(Fail::from("no row"));
        }
        let Some(size) = self.rows[place].planned_at(clock) else {
            return Ok(false);
        };
        let held = self.held(self.rows[place].number);
        if held >= self.rows[place].slots(&self.bounds) {
            return Ok(true);
        }
        self.take(place, size, 0)?;
        Ok(false)
    }

    // Takes the best-effort packet that is planned for this tick. The answer is whether it found no place.
    fn take_best(&mut self) -> Result<bool, Fail> {
        let clock = self.clock;
        let Some(index) = self.best.iter().position(|planned| planned.0 == clock) else {
            return Ok(false);
        };
        let (_, size) = self.best.remove(index);
        let on = self.on.map(|start| start.0.place);
        let waiting = self
            .here
            .iter()
            .filter(|packet| packet.level == BEST_EFFORT && Some(packet.place) != on)
            .count() as u64;
        if waiting >= u64::from(self.shape.best) {
            return Ok(true);
        }
        self.taken = self.taken.saturating_add(1);
        self.here.push(Packet {
            place: self.taken,
            row: 0,
            chan: ChanNo::new(0).ok_or("channel")?,
            number: 0,
            size,
            at: clock,
            eligible: clock,
            level: BEST_EFFORT,
            next: None,
        })?;
        Ok(false)
    }

    // The first in line of the packets that are eligible.
    fn first_in_line(&self) -> Option<Packet> {
        let mut first: Option<Packet> = None;
        for packet in &self.here {
            let is_first = match &first {
                None => true,
                Some(other) => goes_before(packet, other),
            };
            if packet.eligible <= self.clock && is_first {
                first = Some(*packet);
            }
        }
        first
    }

    // The packet whose last tick this is, with the tick at which it started. It is no longer here.
    fn serve(&mut self) -> Option<(Packet, u64)> {
        if self.on.is_none() {
            self.on = self.first_in_line().map(|packet| (packet, self.clock));
        }
        let (packet, begun) = self.on?;
        if begun.saturating_add(u64::from(packet.size)) > self.clock.saturating_add(1) {
            return None;
        }
        self.on = None;
        self.here.retain(|other| other.place != packet.place);
        Some((packet, begun))
    }

    // What leaves as a packet of a channel.
    fn sent(&self, left: Option<(Packet, u64)>) -> Result<Option<Sent>, Fail> {
        let Some((packet, begun)) = left else {
            return Ok(None);
        };
        if packet.level == BEST_EFFORT {
            return Ok(None);
        }
        let bound = bound_at(&self.bounds, Level::new(packet.level).ok_or("level")?);
        let prop = u64::from(self.shape.prop);
        let departs = begun.saturating_add(u64::from(packet.size));
        Ok(Some(Sent {
            packet: Leaving {
                chan: packet.chan,
                number: packet.number,
                size: packet.size,
                due: packet.eligible.saturating_add(bound).saturating_add(prop),
            },
            at: packet.at,
            eligible: packet.eligible,
            arrives: departs.saturating_add(prop),
            next: packet.next,
        }))
    }
}
