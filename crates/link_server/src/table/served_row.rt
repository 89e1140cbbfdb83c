//! A row of a link: a reservation that is held, its regulator, its planned packets, and the units that it keeps.
ghost use Rattle.std.specs.Prelude.{◌≡◌, ◌+◌, ◌-◌, ◌^◌, ◌<◌, ◌≤◌, suc, true, ◌&&◌, nat_eq, nat_lt, if◌then◌else◌, find, IfNone, IfSome, IfOk, length};
ghost use Rattle.net_units.specs.Limits.{most_bound};
ghost use Rattle.net_units.specs.Numbers.{level_number};
ghost use Rattle.traffic_contract.specs.Contract.{IsContract, most_in};
ghost use Rattle.traffic_contract.specs.Eligible.{newest};
ghost use Rattle.link_steps.specs.Buffer.{units_for};
ghost use Rattle.link_steps.specs.Refusals.{busy};
ghost use Rattle.link_steps.specs.Sources.{lead_with};

use crate::planned::Planned;
use crate::queue::held_packet::HeldPacket;
use link_steps::{Packet, Phase, Refusal, Why};
use net_units::{Bounds, ChanNo, Kind, Level, LinkNo, OutOfMemory};
use regulator_core::Regulator;
use release_hold::Draining;
use std::alloc::Global;
use traffic_contract::Contract;

// What a reserve asks for.
#[derive(Clone, Copy)]
pub(crate) struct Wanted {
    pub(crate) chan: ChanNo,
    pub(crate) contract: Contract,
    pub(crate) kind: Kind,
    pub(crate) delay: u64,
    pub(crate) up_reach: u64,
    pub(crate) first: bool,
    pub(crate) next: Option<LinkNo>,
}

// What it is offered: the least level that admits the contract, and the largest to which it may be relaxed.
#[derive(Clone, Copy)]
pub(crate) struct Offered {
    pub(crate) level: Level,
    pub(crate) reach: Level,
}

// A reservation that is held.
#[derive(Drop)]
pub(crate) struct ServedRow {
    pub(crate) chan: ChanNo,
    pub(crate) contract: Contract,
    pub(crate) kind: Kind,
    pub(crate) first: bool,
    pub(crate) next: Option<LinkNo>,
    pub(crate) phase: Phase,
    pub(crate) level: Level,
    pub(crate) reach: Level,
    pub(crate) up_reach: u64,
    pub(crate) up_bound: u64,
    // The time that its packets may be here, and its slots for that time. They are kept since a slot is looked for with each
    // packet, and to tell them takes two divisions.
    pub(crate) stay: u64,
    pub(crate) slots: u64,
    pub(crate) count: u64,
    // The arrival number of its first packet, or 0 before it, and how many it has taken.
    pub(crate) lead: u64,
    pub(crate) taken: u64,
    // How many of these have departed.
    pub(crate) departed: u64,
    // The newest eligible tick, or 0 before the first.
    pub(crate) last: u64,
    pub(crate) regulator: Regulator,
    pub(crate) planned: Planned,
    ghost is_contract: { IsContract contract },
    ghost reach_most: { up_reach ≤ most_bound },
    ghost bound_most: { up_bound ≤ most_bound },
    ghost regulates: { regulator.contract ≡ contract },
    ghost controls: { regulator.kind ≡ kind },
    ghost newest: { last ≡ newest regulator.recent },
    ghost has_slots: { slots ≡ most_in contract stay },
    ghost slots_most: { slots < 2 ^ 22 },
    ghost departed_most: { departed ≤ taken },
}

impl ServedRow {
    ghost use Rattle.link_steps.specs.Buffer.{stay_of, slots_of, held_units};
    ghost use Rattle.link_steps.specs.declared.replies.Phase.TheVariants.{Tentative, Committed};
    ghost use Rattle.link_steps.specs.Refusals.{not_in_phase, unfit, too_big, full};
    ghost use Rattle.link_steps.specs.Account.{new_account, account_relaxed, account_planned, account_closed, past_tick, account_with};
    ghost use Rattle.link_steps.specs.Regulator.{eligible_next};
    ghost use Rattle.link_steps.specs.Replies.{count_at_release, cancelled_at_release};
    ghost use Rattle.link_steps.specs.Hold.{hold_ended};
    ghost use Rattle.link_steps.specs.Reservation.{tentative};
    ghost use Rattle.link_steps.specs.Rows.{is_for};
    ghost use Rattle.link_steps.specs.Sources.{arrival_at};
    ghost use Rattle.link_server.specs.Holds.{is_open, EndsBy};
    ghost use Rattle.link_server.specs.Packets.{arrival_in};
    ghost use Rattle.link_server.specs.Planned.{left_in, size_of, IsPlannedAhead};
    ghost use Rattle.link_server.specs.Rows.{reservation_in, row_in, is_served_at_hop, IsWithinLevels};
    ghost use Rattle.link_server.specs.Strays.{arrive_refusal, stray};

    // A tentative reservation at the offered level. It takes all memory that it will ever need.
    pub(crate) fn new(
        alloc: Global,
        wanted: &Wanted,
        offer: &Offered,
    ) -> Result<ServedRow, OutOfMemory>
        requires contract { IsContract wanted.now.contract }
        requires reach { wanted.now.up_reach ≤ most_bound }
        ensures row { IfOk result (λ row. row_in row ≡ new_account (tentative wanted.now.chan wanted.now.contract wanted.now.kind wanted.now.first wanted.now.next wanted.now.up_reach offer.now.level offer.now.reach)) }
        ensures departed { IfOk result (λ row. row.departed ≡ 0) }
    {
        let regulator = Regulator::new(alloc, wanted.contract, wanted.kind)?;
        Ok(ServedRow {
            chan: wanted.chan,
            contract: wanted.contract,
            kind: wanted.kind,
            first: wanted.first,
            next: wanted.next,
            phase: Phase::Tentative,
            level: offer.level,
            reach: offer.reach,
            up_reach: wanted.up_reach,
            up_bound: 0,
            stay: 0,
            slots: wanted.contract.bound(0),
            count: 0,
            lead: 0,
            taken: 0,
            departed: 0,
            last: 0,
            regulator,
            planned: Planned::NONE,
        })
    }

    // Whether it is this channel's, at its first hop or at a later one.
    pub(crate) fn is_at_hop(&self, chan: ChanNo, first: bool) -> bool
        ensures { result ≡ is_served_at_hop chan first self.now }
    {
        self.chan.get() == chan.get() && self.first == first
    }

    // The refusal of an ask that wants a tentative reservation.
    pub(crate) fn not_tentative(&self) -> Option<Refusal>
        ensures { result ≡ not_in_phase Tentative (reservation_in self.now) }
    {
        match self.phase {
            Phase::Tentative => None,
            Phase::Committed | Phase::Closing => Some(Refusal::NotInPhase { phase: self.phase }),
        }
    }

    // The refusal of a relax to a level that isn't from the offer to the reach, or of a bound before that is over
    // the reach before.
    pub(crate) fn unfit(&self, level: Level, up_bound: u64) -> Option<Refusal>
        ensures { result ≡ unfit (reservation_in self.now) level up_bound }
    {
        let from_offer = self.level.get() <= level.get();
        let to_reach = level.get() <= self.reach.get();
        if from_offer && to_reach && up_bound <= self.up_reach {
            return None;
        }
        Some(Refusal::Unfit {
            offer: self.level,
            reach: self.reach,
            up_reach: self.up_reach,
        })
    }

    // Commits it at a level of the link, with the bound allotted at the hop before.
    pub(crate) fn commit(&mut self, level: Level, up_bound: u64, bounds: &Bounds)
        requires bound { up_bound ≤ most_bound }
        requires within { level_number level ≤ length bounds.now }
        ensures row { row_in self.new ≡ account_relaxed level up_bound (row_in self.old) }
        ensures departed { self.new.departed ≡ self.old.departed }
    {
        let stay = up_bound + u64::from(bounds.at(level));
        self.phase = Phase::Committed;
        self.level = level;
        self.up_bound = up_bound;
        self.stay = stay;
        self.slots = self.contract.bound(stay);
    }

    // The refusal of an ask that wants a committed reservation.
    pub(crate) fn not_committed(&self) -> Option<Refusal>
        ensures { result ≡ not_in_phase Committed (reservation_in self.now) }
    {
        match self.phase {
            Phase::Committed => None,
            Phase::Tentative | Phase::Closing => Some(Refusal::NotInPhase { phase: self.phase }),
        }
    }

    // The refusal of a submit where planned packets are left.
    pub(crate) fn busy(&self) -> Option<Refusal>
        ensures { result ≡ busy (length (left_in self.now.planned)) }
    {
        busy_with(self.planned.count)
    }

    // The refusal of a submit of packets that are larger than the contract allows.
    pub(crate) fn too_big(&self, size: u32) -> Option<Refusal>
        ensures { result ≡ too_big (reservation_in self.now) size }
    {
        let smax = self.contract.smax();
        if size <= smax {
            return None;
        }
        Some(Refusal::TooBig {
            size: u64::from(size),
            smax: u64::from(smax),
        })
    }

    // Plans packets where none are left.
    pub(crate) fn plan(&mut self, planned: Planned)
        requires { length (left_in self.old.planned) ≡ 0 }
        ensures row { row_in self.new ≡ account_planned planned.tick planned.count planned.gap planned.size (row_in self.old) }
        ensures departed { self.new.departed ≡ self.old.departed }
    {
        self.planned = planned;
    }

    // The count of its packets as it is released: those taken, or the count that upstream tells, where that is larger.
    pub(crate) fn count_at_release(&self, upstream: Option<u64>) -> u64
        ensures { result ≡ count_at_release upstream self.now.taken }
    {
        match upstream {
            None => self.taken,
            Some(told) => told.max(self.taken),
        }
    }

    // How many planned packets its release cancels: those left at its first hop, which is told no count.
    pub(crate) fn cancelled_at_release(&self, upstream: Option<u64>) -> u64
        ensures { result ≡ cancelled_at_release upstream (length (left_in self.now.planned)) }
    {
        match upstream {
            None => self.planned.count,
            Some(_) => 0,
        }
    }

    // Closes it, with the count of its packets. Nothing is planned any more.
    pub(crate) fn close(&mut self, count: u64)
        ensures row { row_in self.new ≡ account_closed count (row_in self.old) }
        ensures departed { self.new.departed ≡ self.old.departed }
    {
        self.phase = Phase::Closing;
        self.count = count;
        self.planned = Planned::NONE;
    }

    // The refusal of a packet from the link before that has no place here.
    fn stray(&self, packet: &Packet) -> Option<Refusal>
        requires { self.now.taken + 1 < 2 ^ 64 }
        ensures { result ≡ stray packet.now (reservation_in self.now) self.now.taken }
    {
        let next = self.taken + 1;
        let why = if self.first {
            Why::FirstHop
        } else if self.phase == Phase::Tentative {
            Why::Uncommitted
        } else if packet.number != next {
            Why::WrongNumber { next }
        } else if self.phase == Phase::Closing && self.count <= self.taken {
            Why::PastCount { count: self.count }
        } else if packet.size > self.contract.smax() {
            Why::Big {
                smax: u64::from(self.contract.smax()),
            }
        } else {
            return None;
        };
        Some(Refusal::Stray { why })
    }

    // The refusal of a packet where each slot holds one.
    fn full(&self, bounds: &Bounds) -> Option<Refusal>
        requires { IsWithinLevels (length bounds.now) self.now }
        ensures { result ≡ full (self.now.taken - self.now.departed) (slots_of bounds.now (reservation_in self.now)) }
    {
        let held = self.taken - self.departed;
        let slots = self.slots(bounds);
        if held < slots {
            return None;
        }
        Some(Refusal::Full { held, slots })
    }

    // The refusal of a packet from the link before, if there is one.
    pub(crate) fn arrive_refusal(&self, packet: &Packet, bounds: &Bounds) -> Option<Refusal>
        requires few { self.now.taken + 1 < 2 ^ 64 }
        requires within { IsWithinLevels (length bounds.now) self.now }
        ensures { result ≡ arrive_refusal bounds.now packet.now (reservation_in self.now) self.now.taken (self.now.taken - self.now.departed) }
    {
        match self.stray(packet) {
            Some(refusal) => Some(refusal),
            None => self.full(bounds),
        }
    }

    // The size of the packet that is planned for this tick, if there is one. Then it is no longer left.
    pub(crate) fn next_planned(&mut self, clock: u64) -> Option<u32>
        requires ahead { IsPlannedAhead clock self.old.planned }
        ensures size { result ≡ size_of (find (is_for clock) (left_in self.old.planned)) }
        ensures least { IfSome result (λ size. 1 ≤ size) }
        ensures row { row_in self.new ≡ past_tick clock (row_in self.old) }
        ensures departed { self.new.departed ≡ self.old.departed }
        ensures regulator { self.new.regulator ≡ self.old.regulator }
    {
        self.planned.take_at(clock)
    }

    // Whether one of its slots is free.
    pub(crate) fn has_slot(&self, bounds: &Bounds) -> bool
        requires { IsWithinLevels (length bounds.now) self.now }
        ensures { result ≡ nat_lt (self.now.taken - self.now.departed) (slots_of bounds.now (reservation_in self.now)) }
    {
        self.taken - self.departed < self.slots(bounds)
    }

    // Its slots.
    pub(crate) fn slots(&self, bounds: &Bounds) -> u64
        requires { IsWithinLevels (length bounds.now) self.now }
        ensures value { result ≡ slots_of bounds.now (reservation_in self.now) }
        ensures small { result < 2 ^ 22 }
    {
        let stay = self.stay(bounds);
        if stay == self.stay {
            return self.slots;
        }
        self.contract.bound(stay)
    }

    // Takes its next packet in this tick, with `place`, the next arrival number of the link. The packet is due at the
    // tick `due`, which is 0 at a first hop. It takes no memory.
    pub(crate) fn take(&mut self, size: u32, due: u64, place: u64, clock: u64) -> HeldPacket
        requires size { 1 ≤ size }
        requires early { clock < 2 ^ 61 }
        requires due { due < 2 ^ 62 }
        requires hop { self.old.first ≡ true → due ≡ 0 }
        requires last { newest (row_in self.old).recent < 2 ^ 63 }
        requires few { self.old.taken + 1 < 2 ^ 64 }
        ensures packet { arrival_in result ≡ arrival_at (reservation_in self.old) self.old.lead place (suc self.old.taken) size clock (eligible_next (reservation_in self.old) (row_in self.old).recent clock due) }
        ensures row { row_in self.new ≡ account_with place (eligible_next (reservation_in self.old) (row_in self.old).recent clock due) (row_in self.old) }
        ensures departed { self.new.departed ≡ self.old.departed }
    {
        let eligible = self.regulator.admit(clock, due);
        self.last = eligible;
        self.taken += 1;
        self.lead = lead_with(self.lead, place);
        HeldPacket {
            place,
            lead: self.lead,
            chan: self.chan,
            number: self.taken,
            size,
            at: clock,
            eligible,
            level: self.level.get(),
            next: self.next,
        }
    }

    // A packet with this lead departs. It counts as the row's where the row has that lead, and a packet here.
    pub(crate) fn depart(&mut self, lead: u64)
        ensures row { row_in self.new ≡ row_in self.old }
        ensures departed { self.new.departed ≡ (if nat_eq self.old.lead lead && nat_lt self.old.departed self.old.taken then suc self.old.departed else self.old.departed) }
    {
        if self.lead == lead && self.departed < self.taken {
            self.departed += 1;
        }
    }

    // Whether its hold has ended by this tick.
    pub(crate) fn has_ended(&self, bounds: &Bounds, clock: u64) -> bool
        requires { self.now.last < 2 ^ 63 }
        ensures { result ≡ hold_ended bounds.now (reservation_in self.now) self.now.taken self.now.last clock }
    {
        match self.phase {
            Phase::Tentative | Phase::Committed => false,
            Phase::Closing => {
                let draining = Draining {
                    last: self.count,
                    eligible: self.taken,
                    last_tick: self.last,
                };
                draining.due(clock, u64::from(bounds.last()))
            }
        }
    }

    // The first tick, from that of the clock on, by which its hold has ended, once no packet is left to wait for.
    pub(crate) fn hold_end(&self, bounds: &Bounds, clock: u64) -> Option<u64>
        requires { self.now.last < 2 ^ 63 }
        ensures none { IfNone result (is_open (row_in self.now) ≡ true) }
        ensures some { IfSome result (EndsBy bounds.now clock (row_in self.now)) }
    {
        match self.phase {
            Phase::Tentative | Phase::Committed => None,
            Phase::Closing if self.count == 0 => Some(clock),
            Phase::Closing if self.taken == self.count => {
                Some(clock.max(self.last + u64::from(bounds.last())))
            }
            Phase::Closing => None,
        }
    }

    // The units that it keeps.
    pub(crate) fn units(&self, bounds: &Bounds) -> u64
        requires { IsWithinLevels (length bounds.now) self.now }
        ensures { result ≡ held_units bounds.now (reservation_in self.now) }
    {
        units_for(&self.contract, self.stay(bounds))
    }

    // The longest time in ticks that a packet of the channel is at the hop before and at this link together.
    fn stay(&self, bounds: &Bounds) -> u64
        requires { IsWithinLevels (length bounds.now) self.now }
        ensures value { result ≡ stay_of bounds.now (reservation_in self.now) }
        ensures small { result ≤ 2097152 }
    {
        match self.phase {
            Phase::Tentative => self.up_reach + u64::from(bounds.at(self.reach)),
            Phase::Committed | Phase::Closing => self.up_bound + u64::from(bounds.at(self.level)),
        }
    }
}

// The units of the slots for a window of `stay` ticks.
pub(crate) fn units_for(contract: &Contract, window: u64) -> u64
    requires { window ≤ 2097152 }
    ensures value { result ≡ units_for contract.now window }
    ensures small { result < 2 ^ 40 }
{
    contract.bound(window) * u64::from(contract.smax())
}

// The lead of a row when it takes the packet of this arrival number.
fn lead_with(lead: u64, place: u64) -> u64
    ensures { result ≡ lead_with lead place }
{
    if lead == 0 { place } else { lead }
}

// The refusal where `left` planned packets are left.
pub(crate) fn busy_with(left: u64) -> Option<Refusal>
    ensures { result ≡ busy left }
{
    if left == 0 {
        return None;
    }
    Some(Refusal::Busy { left })
}
