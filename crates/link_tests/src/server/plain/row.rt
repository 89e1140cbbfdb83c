//! A row of a plain link.
use link_steps::{Packet, Phase, Refusal, Why};
use net_units::{ChanNo, Kind, Level, LinkNo};
use std::alloc::AllocFailed;
use traffic_contract::Contract;

#[derive(Drop)]
pub(super) struct Row {
    // Its number among all offers of the link.
    pub(super) number: u64,
    pub(super) chan: ChanNo,
    pub(super) contract: Contract,
    pub(super) kind: Kind,
    pub(super) first: bool,
    pub(super) next: Option<LinkNo>,
    pub(super) phase: Phase,
    pub(super) level: Level,
    pub(super) reach: Level,
    pub(super) up_reach: u64,
    pub(super) up_bound: u64,
    pub(super) count: u64,
    // The eligible ticks of all packets that it has taken.
    pub(super) ticks: Vec<u64>,
    // The tick and the size of each planned packet that is left.
    pub(super) plan: Vec<(u64, u32)>,
}

// The bound of a level of three.
pub(super) fn bound_at(bounds: &[u64; 3], level: Level) -> u64 {
    match level.get() {
        0 | 1 => bounds[0],
        2 => bounds[1],
        _ => bounds[2],
    }
}

// The units that a contract's packets in a window come to. At a unit a tick that is also the ticks of work that they bring.
pub(super) fn units_in(contract: &Contract, window: u64) -> u64 {
    let packets = contract.bound(window.min(1 << 39));
    packets.saturating_mul(u64::from(contract.smax()))
}

impl Row {
    pub(super) fn taken(&self) -> u64 {
        self.ticks.len() as u64
    }

    // The longest time that a packet is at the hop before and here.
    pub(super) fn stay(&self, bounds: &[u64; 3]) -> u64 {
        match self.phase {
            Phase::Tentative => self.up_reach.saturating_add(bound_at(bounds, self.reach)),
            Phase::Committed | Phase::Closing => {
                self.up_bound.saturating_add(bound_at(bounds, self.level))
            }
        }
    }

    pub(super) fn slots(&self, bounds: &[u64; 3]) -> u64 {
        self.contract.bound(self.stay(bounds).min(1 << 39))
    }

    // The least tick from this one on at which the contract lets a packet go.
    fn lets_go_from(&self, tick: u64) -> u64 {
        let count = self.ticks.len();
        let mut eligible = tick;
        if let Some(last) = self.ticks.last() {
            eligible = eligible.max(last.saturating_add(u64::from(self.contract.xmin())));
        }
        let burst = self.contract.burst() as usize;
        if count >= burst {
            if let Some(begun) = self.ticks.get(count - burst) {
                eligible = eligible.max(begun.saturating_add(u64::from(self.contract.interval())));
            }
        }
        eligible
    }

    // Takes a packet that arrives at the clock and is due at a tick. The answer is its eligible tick.
    pub(super) fn take(&mut self, clock: u64, due: u64) -> Result<u64, AllocFailed<u64>> {
        let waits = match self.kind {
            Kind::Jitter if !self.first => clock.max(due),
            Kind::Jitter | Kind::Rate => clock,
        };
        let eligible = self.lets_go_from(waits);
        self.ticks.push(eligible)?;
        Ok(eligible)
    }

    // Why a packet has no place, where it has none.
    pub(super) fn stray(&self, packet: &Packet) -> Option<Refusal> {
        let next = self.taken().saturating_add(1);
        let smax = self.contract.smax();
        let why = if self.first {
            Why::FirstHop
        } else if self.phase == Phase::Tentative {
            Why::Uncommitted
        } else if packet.number != next {
            Why::WrongNumber { next }
        } else if self.phase == Phase::Closing && self.taken() >= self.count {
            Why::PastCount { count: self.count }
        } else if packet.size > smax {
            Why::Big {
                smax: u64::from(smax),
            }
        } else {
            return None;
        };
        Some(Refusal::Stray { why })
    }

    // The size of the packet that is planned for this tick. It is no longer left.
    pub(super) fn planned_at(&mut self, tick: u64) -> Option<u32> {
        let place = self.plan.iter().position(|planned| planned.0 == tick)?;
        let planned = self.plan.remove(place);
        Some(planned.1)
    }

    // Whether it expires in this tick.
    pub(super) fn has_ended(&self, bounds: &[u64; 3], tick: u64) -> bool {
        if self.phase != Phase::Closing {
            return false;
        }
        if self.count == 0 {
            return true;
        }
        let last = self.ticks.last().copied().unwrap_or(0);
        self.taken() == self.count && last.saturating_add(bounds[2]) <= tick
    }
}
