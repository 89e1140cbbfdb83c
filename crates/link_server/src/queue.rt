//! The queue of the packets at a link: those that it has taken and that haven't departed, and the one that occupies it.
ghost use Rattle.std.specs.Prelude.{◌≡◌, ◌+◌, ◌^◌, ◌<◌, ◌≤◌, ◌∷◌, ◌++◌, [], None, suc, nat_eq, filter, find, length, IsTrue, IsOk, IfOk, OnOk};
ghost use Rattle.link_server.specs.Packets.{arrival_in};
ghost use Rattle.link_server.specs.Planned.{left_in};

mod best_effort;
pub(crate) mod held_packet;
mod line;
mod ready;

use crate::planned::Planned;
use crate::queue::best_effort::{best_in, best_packet};
use crate::queue::held_packet::{HeldPacket, Left, Running};
use crate::queue::line::Line;
use link_steps::LinkShape;
use net_units::{Bounds, OutOfMemory, ceil_div};
use std::alloc::Global;
use std::marker::Model;

// The packets at a link, and those that are planned of no channel. A contract sees the record `QueueAccount`.
#[derive(Drop)]
pub(crate) struct Queue {
    // How many packets the link has taken.
    taken: u64,
    // Those that haven't started.
    line: Line,
    // What the link sends in a tick, and the bounds of its levels: a best-effort packet is of the level after the last.
    rate: u32,
    bounds: Bounds,
    // How many best-effort packets are here and haven't started.
    best_waiting: u64,
    // For how many packets there is room, those here included.
    room: usize,
    // The one that occupies the link.
    on: Option<Running>,
    // The best-effort packets that are planned and left.
    best: Planned,
}

impl Model for Queue {
    ghost use Rattle.link_server.specs.QueueAccount.{QueueAccount};

    ghost Value = { QueueAccount };

    ghost use Rattle.link_server.specs.QueueParts.{queue_seen, IsQueue};

    ghost view = { queue_seen };

    ghost invariant = { IsQueue };
}

impl Queue {
    ghost use Rattle.link_steps.specs.BestEffort.{best_packet, best_step};
    ghost use Rattle.link_steps.specs.Account.{served, departs, best_departs, still_on, still_here, waits_here};
    ghost use Rattle.link_steps.specs.Lists.{Each};
    ghost use Rattle.link_steps.specs.Quiet.{ServiceRests};
    ghost use Rattle.link_steps.specs.Rows.{is_for, left_at};
    ghost use Rattle.link_steps.specs.Sources.{source_step, taken_by, dropped_by};
    ghost use Rattle.link_server.specs.Planned.{IsPlannedFrom};
    ghost use Rattle.link_server.specs.Departed.{leaver};
    ghost use Rattle.link_server.specs.Serving.{CanServe};

    // No packet taken yet, and no room for one, at a link of this shape.
    pub(crate) fn new(alloc: Global, shape: &LinkShape) -> Result<Queue, OutOfMemory>
        ensures { IfOk result (λ made. made ≡ record { taken = 0; here = []; on = None; best = []; room = 0; looked = 0; bounds = shape.now.bounds; rate = shape.now.rate }) }
    {
        Ok(Queue {
            taken: 0,
            line: Line::new(alloc)?,
            rate: shape.rate,
            bounds: shape.bounds,
            best_waiting: 0,
            room: 0,
            on: None,
            best: Planned::NONE,
        })
    }

    // Makes room for `more` more packets here. Where there is that room already it takes no memory.
    pub(crate) fn reserve(&mut self, more: usize) -> Result<(), OutOfMemory>
        ensures room { OnOk result (length self.new.here + more ≤ self.new.room) }
        ensures had_room { length self.old.here + more ≤ self.old.room → IsOk result }
        ensures grows { self.old.room ≤ self.new.room }
        ensures small { self.old.room < 2 ^ 63 → self.new.room < 2 ^ 63 }
        ensures kept { self.new ≡ record self.old { room = self.new.room } }
    {
        let room = self.len().checked_add(more).ok_or(OutOfMemory)?;
        if room <= self.room {
            return Ok(());
        }
        self.line.reserve(room)?;
        self.room = room;
        Ok(())
    }

    // How many packets the link has taken.
    pub(crate) fn taken(&self) -> u64
        ensures { result ≡ self.now.taken }
    {
        self.taken
    }

    // How many are here.
    pub(crate) fn len(&self) -> usize
        ensures { result ≡ length self.now.here }
    {
        match self.on {
            Some(_) => self.line.len() + 1,
            None => self.line.len(),
        }
    }

    // How many best-effort packets are planned and left.
    pub(crate) fn best_left(&self) -> u64
        ensures { result ≡ length self.now.best }
    {
        self.best.count
    }

    // Plans best-effort packets.
    pub(crate) fn plan_best(&mut self, planned: Planned)
        ensures { self.new ≡ record self.old { best = left_in planned } }
    {
        self.best = planned;
    }

    // Takes a packet, after those that are here, which isn't eligible before the tick of the clock. It takes no memory.
    #[inline(always)]
    pub(crate) fn push(&mut self, packet: &HeldPacket, clock: u64)
        requires room { length self.old.here < self.old.room }
        requires next { packet.now.place ≡ self.old.taken + 1 }
        requires looked { self.old.looked ≤ clock }
        requires eligible { clock ≤ packet.now.eligible }
        requires countable { self.old.taken + 1 < 2 ^ 64 }
        ensures kept { self.new ≡ record self.old { taken = self.old.taken + 1; here = self.old.here ++ arrival_in packet.now ∷ []; looked = self.new.looked } }
        ensures looked { self.new.looked ≤ clock }
    {
        self.best_waiting += best_in(packet, &self.bounds);
        self.line.push(packet, clock);
        self.taken += 1;
    }

    // A tick before which no packet starts or departs, and no best-effort packet is planned.
    pub(crate) fn rests_until(&self) -> u64
        ensures service { ServiceRests self.now.rate result self.now.here self.now.on }
        ensures best { Each (IsPlannedFrom result) self.now.best }
    {
        self.service_rests_until().min(self.best.rests_until())
    }

    // A tick before which no packet starts or departs.
    fn service_rests_until(&self) -> u64
        ensures { ServiceRests self.now.rate result self.now.here self.now.on }
    {
        match &self.on {
            Some(running) => running.leaves - 1,
            None => {
                if self.line.len() == 0 {
                    u64::MAX
                } else {
                    self.line.rests_until()
                }
            }
        }
    }

    // Whether the best-effort packet that is planned for this tick has a place. It looks at no packet.
    pub(crate) fn best_fits(&self, shape: &LinkShape, clock: u64) -> bool
        requires ahead { Each (IsPlannedFrom clock) self.now.best }
        requires bounds { self.now.bounds ≡ shape.now.bounds }
        ensures step { source_step result (find (is_for clock) self.now.best) ≡ best_step (length (filter (waits_here shape.now.bounds self.now.on) self.now.here)) shape.now.best clock self.now.best }
        ensures fewer { IsTrue result → length (filter (waits_here shape.now.bounds self.now.on) self.now.here) < shape.now.best }
    {
        if !self.best.is_for(clock) {
            return false;
        }
        self.best_waiting < u64::from(shape.best)
    }

    // Takes the best-effort packet that is planned for this tick, if there is one and it `fits`. It answers whether it
    // found no place, and so was lost. It takes no memory.
    pub(crate) fn take_best(&mut self, fits: bool, shape: &LinkShape, clock: u64) -> bool
        requires ahead { Each (IsPlannedFrom clock) self.old.best }
        requires room { IsTrue fits → length self.old.here < self.old.room }
        requires countable { self.old.taken + 1 < 2 ^ 64 }
        requires looked { self.old.looked ≤ clock }
        ensures lost { result ≡ nat_eq (dropped_by (source_step fits (find (is_for clock) self.old.best))) 1 }
        ensures kept { self.new ≡ record self.old { taken = self.old.taken + taken_by (source_step fits (find (is_for clock) self.old.best)); here = self.old.here ++ best_packet (source_step fits (find (is_for clock) self.old.best)) shape.now.bounds (suc self.old.taken) clock; best = left_at (clock + 1) self.old.best; looked = self.new.looked } }
        ensures looked { self.new.looked ≤ clock }
    {
        let Some(size) = self.best.take_at(clock) else {
            return false;
        };
        if !fits {
            return true;
        }
        let place = self.taken + 1;
        let packet = best_packet(&shape.bounds, place, size, clock);
        self.push(&packet, clock);
        false
    }

    // Serves the tick of the clock: a packet that is on goes on, or else one starts. The answer is the packet whose last
    // tick this is, which departs at its end. It takes no memory.
    pub(crate) fn serve(&mut self, shape: &LinkShape, clock: u64) -> Left
        requires early { clock < 2 ^ 61 }
        requires looked { self.old.looked ≤ clock }
        requires rate { self.old.rate ≡ shape.now.rate }
        requires serves { CanServe shape.now clock self.old.on }
        ensures sent { result.sent ≡ departs shape.now clock (served clock self.old.here self.old.on) }
        ensures best_sent { result.best_sent ≡ best_departs shape.now clock (served clock self.old.here self.old.on) }
        ensures gone { result.gone ≡ leaver shape.now.rate clock (served clock self.old.here self.old.on) }
        ensures kept { self.new ≡ record self.old { here = still_here shape.now.rate clock (served clock self.old.here self.old.on) self.old.here; on = still_on shape.now.rate clock (served clock self.old.here self.old.on); looked = self.new.looked } }
        ensures looked { self.new.looked ≤ clock }
    {
        let Some(running) = &self.on else {
            return self.start(shape, clock);
        };
        if running.leaves > clock + 1 {
            return Left::NOTHING;
        }
        let left = running.left(shape);
        self.on = None;
        left
    }

    // Lets the first in line of those here start in this tick, where the link is free. One whose last tick this is departs at its
    // end, and is never kept as the one on the link.
    fn start(&mut self, shape: &LinkShape, clock: u64) -> Left
        requires early { clock < 2 ^ 61 }
        requires looked { self.old.looked ≤ clock }
        requires rate { self.old.rate ≡ shape.now.rate }
        requires free { self.old.on ≡ None }
        ensures sent { result.sent ≡ departs shape.now clock (served clock self.old.here None) }
        ensures best_sent { result.best_sent ≡ best_departs shape.now clock (served clock self.old.here None) }
        ensures gone { result.gone ≡ leaver shape.now.rate clock (served clock self.old.here None) }
        ensures kept { self.new ≡ record self.old { here = still_here shape.now.rate clock (served clock self.old.here None) self.old.here; on = still_on shape.now.rate clock (served clock self.old.here None); looked = self.new.looked } }
        ensures looked { self.new.looked ≤ clock }
    {
        // most ticks of a run find no packet here, and needn't look at the line
        if self.line.len() == 0 {
            return Left::NOTHING;
        }
        let Some(packet) = self.line.next(clock) else {
            return Left::NOTHING;
        };
        self.best_waiting -= best_in(&packet, &self.bounds);
        let leaves = clock + ceil_div(u64::from(packet.size), u64::from(shape.rate));
        let running = Running {
            packet,
            tick: clock,
            leaves,
        };
        if leaves > clock + 1 {
            self.on = Some(running);
            return Left::NOTHING;
        }
        running.left(shape)
    }
}
