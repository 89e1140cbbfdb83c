//! The asks by which a plain link carries packets.
ghost use Rattle.std.specs.Prelude.{◌<◌, IfSome, length};

use super::serving::Packet;
use super::{PlainLink, refused};
use link_steps::{Packet as Arriving, Phase, Refusal, Reply, Why};
use net_units::ChanNo;
use std::alloc::{AllocError, Global};
use std::test::Fail;

// A plan of packets: the tick and the size of each.
fn plan_of(
    alloc: Global,
    from: u64,
    count: u64,
    gap: u64,
    size: u32,
) -> Result<Vec<(u64, u32)>, AllocError> {
    let mut plan = Vec::new(alloc);
    let mut tick = from;
    for _ in 0..count {
        plan.push((tick, size))?;
        tick = tick.saturating_add(gap);
    }
    Ok(plan)
}

impl PlainLink {
    // The place of the channel's row at its first hop, or at a later one.
    fn place_at_hop(&self, chan: ChanNo, first: bool) -> Option<usize>
        ensures { IfSome result (λ place. place < length self.now.rows.items) }
    {
        self.rows
            .iter()
            .position(|row| row.chan.get() == chan.get() && row.first == first)
    }

    pub(super) fn submit(
        &mut self,
        chan: ChanNo,
        count: u64,
        gap: u64,
        size: u32,
    ) -> Result<Reply, Fail> {
        let clock = self.clock;
        let Some(place) = self.place_at_hop(chan, true) else {
            return Ok(refused(Refusal::NoSuch));
        };
        let row = &mut self.rows[place];
        if row.phase != Phase::Committed {
            return Ok(refused(Refusal::NotInPhase { phase: row.phase }));
        }
        if !row.plan.is_empty() {
            let left = row.plan.len() as u64;
            return Ok(refused(Refusal::Busy { left }));
        }
        let smax = row.contract.smax();
        if size > smax {
            return Ok(refused(Refusal::TooBig {
                size: u64::from(size),
                smax: u64::from(smax),
            }));
        }
        row.plan = plan_of(self.alloc, clock, count, gap, size)?;
        Ok(Reply::Planned { clock })
    }

    pub(super) fn pour(&mut self, count: u64, gap: u64, size: u32) -> Result<Reply, Fail> {
        if !self.best.is_empty() {
            let left = self.best.len() as u64;
            return Ok(refused(Refusal::Busy { left }));
        }
        if size > self.shape.cap {
            return Ok(refused(Refusal::TooBig {
                size: u64::from(size),
                smax: u64::from(self.shape.cap),
            }));
        }
        self.best = plan_of(self.alloc, self.clock, count, gap, size)?;
        Ok(Reply::Planned { clock: self.clock })
    }

    pub(super) fn release(&mut self, chan: ChanNo, upstream: Option<u64>) -> Reply {
        let Some(place) = self.place_at_hop(chan, upstream.is_none()) else {
            return refused(Refusal::NoSuch);
        };
        let row = &mut self.rows[place];
        if row.phase != Phase::Committed {
            return refused(Refusal::NotInPhase { phase: row.phase });
        }
        let count = upstream.unwrap_or(0).max(row.taken());
        let cancelled = if upstream.is_none() {
            row.plan.len() as u64
        } else {
            0
        };
        row.phase = Phase::Closing;
        row.count = count;
        row.plan.clear();
        Reply::Closing { count, cancelled }
    }

    pub(super) fn arrive(&mut self, packet: &Arriving) -> Result<Reply, Fail> {
        let clock = self.clock;
        let Some(place) = self.place_of(packet.chan) else {
            return Ok(refused(Refusal::Stray { why: Why::NoRow }));
        };
        if let Some(refusal) = self.rows[place].stray(packet) {
            return Ok(refused(refusal));
        }
        let held = self.held(self.rows[place].number);
        let slots = self.rows[place].slots(&self.bounds);
        if held >= slots {
            return Ok(refused(Refusal::Full { held, slots }));
        }
        let eligible = self.take(place, packet.size, packet.due)?;
        Ok(Reply::Taken { clock, eligible })
    }

    // How many packets here are of the row of this number.
    pub(super) fn held(&self, number: u64) -> u64 {
        self.here
            .iter()
            .filter(|packet| packet.row == number)
            .count() as u64
    }

    // The row at this place takes a packet. The answer is its eligible tick.
    pub(super) fn take(&mut self, place: usize, size: u32, due: u64) -> Result<u64, Fail> {
        if place >= self.rows.len() {
            return Err(Fail::from("no row"));
        }
        let row = &mut self.rows[place];
        let eligible = row.take(self.clock, due)?;
        self.taken = self.taken.saturating_add(1);
        self.here.push(Packet {
            place: self.taken,
            row: row.number,
            chan: row.chan,
            number: row.taken(),
            size,
            at: self.clock,
            eligible,
            level: row.level.get(),
            next: row.next,
        })?;
        Ok(eligible)
    }
}
