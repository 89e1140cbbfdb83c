//! The state of a link, and its steps.
ghost use Rattle.std.specs.Prelude.{◌≡◌, ◌^◌, ◌<◌, ◌≤◌, ◌∷◌, [], List, map, length, IfOk, OnErr, IsOk};
ghost use Rattle.link_steps.specs.Legal.{AskFits};
ghost use Rattle.link_steps.specs.Shape.{server_of};
ghost use Rattle.link_server.specs.Account.{account};
ghost use Rattle.link_server.specs.Departed.{AreCounted, AreCounted-prop};
ghost use Rattle.link_server.specs.Resting.{RestsFromClock, RestsFromClock-prop};
ghost use Rattle.link_server.specs.Sound.{IsSound};
ghost use Rattle.link_server.specs.SoundProp.{IsSound-prop};
ghost use Rattle.link_server.specs.Stood.{IsStood, IsStood-prop};

use crate::held_row::HeldRow;
use crate::queue::Queue;
use crate::table::Table;
use crate::table::rows::{need_of, reach_of};
use link_steps::{Ask, LinkShape, LinkStep, Reply};
use net_units::{ChanNo, Level, OutOfMemory};
use std::alloc::Global;
use traffic_contract::Contract;

/// A link: its shape, its clock, the reservations that it holds, and its packets.
#[derive(Drop)]
pub struct LinkState {
    pub(crate) alloc: Global,
    pub(crate) shape: LinkShape,
    pub(crate) clock: u64,
    // The reservations that it holds.
    pub(crate) table: Table,
    // It has room for the channels' packets that are here, for one in each free slot, for one more a row, and for the
    // best-effort packets that may be here.
    pub(crate) queue: Queue,
    // Nothing falls due before this tick.
    pub(crate) due: u64,
    ghost of_shape: { table ≡ record table { server = server_of shape; buffer = shape.buffer } },
    ghost same_bounds: { queue.bounds ≡ shape.bounds },
    ghost same_rate: { queue.rate ≡ shape.rate },
    ghost looked: { (table.looked ≤ clock) × (queue.looked ≤ clock) },
    ghost few: { queue.room < 2 ^ 63 },
    ghost sound: { IsSound shape queue.room (account clock queue table.rows) } by { IsSound-prop shape queue.room (account clock queue table.rows) },
    ghost stood: { IsStood shape (account clock queue table.rows) } by { IsStood-prop shape (account clock queue table.rows) },
    ghost counted: { AreCounted queue.here table.rows table.departed } by { AreCounted-prop queue.here table.rows table.departed },
    ghost rests: { RestsFromClock shape due (account clock queue table.rows) } by { RestsFromClock-prop shape due (account clock queue table.rows) },
}

impl LinkState {
    ghost use Rattle.net_units.specs.LevelBounds.{reach_of};
    ghost use Rattle.net_units.specs.Limits.{most_bound};
    ghost use Rattle.net_units.specs.Numbers.{level_number};
    ghost use Rattle.link_steps.specs.Buffer.{need_of};
    ghost use Rattle.link_steps.specs.declared.replies.Entry.{Entry};
    ghost use Rattle.link_steps.specs.Rows.{row_terms};
    ghost use Rattle.link_steps.specs.Scan.{scan_of};
    ghost use Rattle.link_server.specs.Held.{reservations_held, seen_at, seen_of};
    ghost use Rattle.link_server.specs.State.{LinkStands};
    ghost use Rattle.link_server.specs.Asks.{IsArriveOrTick};
    ghost use Rattle.link_steps.specs.Replies.{reply_to};
    ghost use Rattle.link_steps.specs.Split.{whole};

    /// A link of this shape that has made no step. It takes the memory of the best-effort packets that may be here.
    pub fn new(alloc: Global, shape: LinkShape) -> Result<LinkState, OutOfMemory>
        ensures shape { IfOk result (λ link. link.shape ≡ shape) }
        ensures clock { IfOk result (λ link. link.clock ≡ 0) }
        ensures stands { IfOk result (λ link. LinkStands link []) }
    {
        let places = shape.best + 1;
        let mut queue = Queue::new(alloc, &shape)?;
        queue.reserve(places as usize)?;
        Ok(LinkState {
            alloc,
            table: Table::new(alloc, &shape)?,
            shape,
            clock: 0,
            queue,
            due: 0,
        })
    }

    /// Makes a step that lets a packet arrive or makes a tick, as [`LinkStep::step`] does. It never wants memory. The reply is
    /// written where the caller reads it, since to copy one takes as long as a part of the step.
    #[inline(always)]
    pub fn step_into(&mut self, ask: &Ask, reply: &mut Reply)
        requires fits { AskFits self.old.shape ask.now }
        requires early { self.old.clock < 2 ^ 61 }
        requires sure { IsArriveOrTick ask.now }
        ensures same { whole self.new.shape ≡ whole self.old.shape }
        ensures legal { (h : List Entry) → LinkStands self.old h → reply.new ≡ reply_to (whole self.old.shape) h ask.now }
        ensures entered { (h : List Entry) → LinkStands self.old h → LinkStands self.new (record { ask = ask.now; reply = reply.new } ∷ h) }
    {
        match ask {
            Ask::Arrive { packet } => self.arrive(packet, reply),
            _ => self.make_tick(reply),
        }
    }

    /// The row at this place, from 0, among those that are held, in the order of their reserves, with the units that it
    /// keeps. None comes exactly where no row is at that place.
    pub fn held(&self, place: u32) -> Option<HeldRow>
        ensures row { result ≡ seen_at self.now.shape.bounds (reservations_held self.now) place }
        ensures stands { (h : List Entry) → LinkStands self.now h → result ≡ seen_at self.now.shape.bounds (map row_terms (scan_of self.now.shape h).rows) place }
    {
        let place = place as usize;
        if place >= self.table.len() {
            return None;
        }
        let row = self.table.row(place);
        Some(HeldRow {
            chan: row.chan,
            contract: row.contract,
            level: row.level,
            phase: row.phase,
            kept: row.units(&self.shape.bounds),
        })
    }

    /// The row of this channel, if one is held, with the units that it keeps.
    pub fn held_of(&self, chan: ChanNo) -> Option<HeldRow>
        ensures row { result ≡ seen_of self.now.shape.bounds (reservations_held self.now) chan }
    {
        let row = self.table.row_of(chan)?;
        Some(HeldRow {
            chan: row.chan,
            contract: row.contract,
            level: row.level,
            phase: row.phase,
            kept: row.units(&self.shape.bounds),
        })
    }

    /// How many rows are held.
    pub fn rows_held(&self) -> u32
        ensures count { result ≡ length (reservations_held self.now) }
    {
        self.table.len() as u32
    }

    /// The units that a new reservation of this contract would keep if it were offered this level: the most packets that may
    /// be here in the reach before this hop and the reach that goes with the level.
    pub fn need_at(&self, contract: &Contract, delay: u64, up_reach: u64, level: Level) -> u64
        requires before { up_reach ≤ most_bound }
        requires within { level_number level ≤ length self.now.shape.bounds }
        ensures { result ≡ need_of self.now.shape.bounds contract.now up_reach (reach_of self.now.shape.bounds delay (level_number level)) }
    {
        let reach = reach_of(&self.shape.bounds, delay, level);
        need_of(&self.shape.bounds, contract, up_reach, reach)
    }
}

impl LinkStep for LinkState {
    ghost use Rattle.link_steps.specs.declared.replies.Entry.{Entry};
    ghost use Rattle.link_steps.specs.HopGuarantee.{HopGuarantee};
    ghost use Rattle.link_steps.specs.Admissible.{IsAdmissible};
    ghost use Rattle.link_steps.specs.Replies.{reply_to};
    ghost use Rattle.link_steps.specs.Split.{whole};
    ghost use Rattle.link_steps.specs.Scan.{clock_with};
    ghost use Rattle.link_server.specs.Asks.{TakesNone, IsOffer};
    ghost use Rattle.link_server.specs.State.{LinkStands, stands-clock, stands-fits};

    ghost link_of = { λ link. whole link.shape };

    ghost clock_at = { λ link. link.clock };

    ghost stands_for = { LinkStands };

    fn shape(&self) -> LinkShape {
        self.shape
    }

    fn clock(&self) -> u64 {
        self.clock
    }

    /// Makes one step. A refusal among the replies leaves the link as it was, and so does want of memory, which comes
    /// for a reserve alone, and there only in place of an offer.
    ///
    /// Where the history is legal, the next one has the hop guarantee (`guaranteed`): after each of its entries the
    /// held rows pass the admission test, each packet that has departed did so later than its eligible tick and within
    /// its level's bound, and each packet whose bound the clock has reached has departed.
    fn step(&mut self, ask: &Ask) -> Result<Reply, OutOfMemory>
        requires fits { AskFits self.old.shape ask.now }
        requires early { self.old.clock < 2 ^ 61 }
        ensures same { whole self.new.shape ≡ whole self.old.shape }
        ensures legal { IfOk result (λ reply. (h : List Entry) → LinkStands self.old h → reply ≡ reply_to (whole self.old.shape) h ask.now) }
        ensures entered { IfOk result (λ reply. (h : List Entry) → LinkStands self.old h → LinkStands self.new (record { ask = ask.now; reply = reply } ∷ h)) }
        ensures memory { OnErr result ((h : List Entry) → LinkStands self.old h → LinkStands self.new h) }
        ensures ticked { IfOk result (λ _. self.new.clock ≡ clock_with ask.now self.old.clock) }
        ensures stopped { OnErr result (self.new.clock ≡ self.old.clock) }

        // The hop guarantee, and want of memory.
        ensures guaranteed { IfOk result (λ reply. (h : List Entry) → LinkStands self.old h → IsAdmissible self.old.shape h → HopGuarantee self.old.shape (record { ask = ask.now; reply = reply } ∷ h)) }
        ensures sure { TakesNone ask.now → IsOk result }
        ensures instead { OnErr result ((h : List Entry) → LinkStands self.old h → IsOffer (reply_to (whole self.old.shape) h ask.now)) }
    {
        // Most steps are ticks, and they wait for none of what the others need.
        match ask {
            Ask::Tick => self.tick(),
            _ => self.answer(ask),
        }
    }

    ghost tells_time = { stands-clock };

    ghost is_fit = { stands-fits };
}
