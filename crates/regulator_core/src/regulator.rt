//! The regulator of one channel at one link.
ghost use Rattle.std.specs.Prelude.{◌≡◌, ◌+◌, ◌-◌, ◌^◌, ◌<◌, ◌≤◌, ℕ, List, [], ◌∷◌, reverse, max, drop, slice_index, IfOk};
ghost use Rattle.traffic_contract.specs.Contract.{IsContract};
ghost use Rattle.traffic_contract.specs.Eligible.{IsEligible, newest, eligible, earliest_tick};
ghost use Rattle.traffic_contract.specs.Keeping.{Keeps};
ghost use Rattle.regulator_core.specs.Kept.{RegulatorStandsFor, kept_ticks, regulator_with, first_after};

use circular_buffer::HeapCircularBuffer;
use net_units::{Kind, OutOfMemory};
use std::alloc::Global;
use std::marker::Model;
use traffic_contract::Contract;

/// The regulator of one channel at one link.
///
/// It enforces the contract on whatever comes, and keeps as many eligible ticks as the contract's burst. A contract
/// sees the record `KeptTicks`: the channel's contract, its kind of control, and those ticks, newest first.
#[derive(Drop)]
pub struct Regulator {
    contract: Contract,
    kind: Kind,
    recent: HeapCircularBuffer<u64>,
}

impl Model for Regulator {
    ghost use Rattle.std.specs.Prelude.{◌≡◌};
    ghost use Rattle.traffic_contract.specs.Contract.{burst_of};
    ghost use Rattle.regulator_core.specs.Kept.{KeptTicks, RegulatorStandsFor, kept_ticks};

    ghost Value = { KeptTicks };

    ghost view = { λ r. kept_ticks r.contract r.kind r.recent.items };

    ghost invariant = { λ r. (r.recent.capacity ≡ burst_of r.contract)
        × RegulatorStandsFor (kept_ticks r.contract r.kind r.recent.items) r.recent.items };
}

impl Regulator {
    /// A regulator that has answered no tick yet. It takes all memory that it will ever need; an `Err` comes only
    /// where that isn't there.
    pub fn new(alloc: Global, contract: Contract, kind: Kind) -> Result<Regulator, OutOfMemory>
        ensures value { IfOk result (λ regulator. regulator ≡ kept_ticks contract kind []) }
        ensures stands { IfOk result (λ regulator. RegulatorStandsFor regulator []) }
    {
        let recent = HeapCircularBuffer::with_capacity(alloc, contract.burst() as usize)?;
        Ok(Regulator {
            contract,
            kind,
            recent,
        })
    }

    /// The eligible tick of the channel's next packet, which arrives at the tick `at` and is due at the tick `due`: the
    /// least tick that isn't below `at`, nor below `due` under delay-jitter control, and with which all ticks answered
    /// so far keep the contract. Rate-jitter control ignores `due`, and a channel's first hop passes 0.
    ///
    /// `at` and `due` are below 2^62, and the tick that it answered last is below 2^63. The call takes no memory.
    pub fn admit(&mut self, at: u64, due: u64) -> u64
        requires at { at < 2 ^ 62 }
        requires due { due < 2 ^ 62 }
        requires last { newest self.old.recent < 2 ^ 63 }
        ensures value { result ≡
            eligible self.old.contract self.old.recent (earliest_tick self.old.kind at due) }
        ensures kept { self.new ≡ regulator_with self.old result }

        // The same of every list of ticks that the regulator stands for, and so of all that it has answered.
        ensures every_value { (past : List ℕ) → RegulatorStandsFor self.old past →
            result ≡ eligible self.old.contract past (earliest_tick self.old.kind at due) }
        ensures every_list { (past : List ℕ) → RegulatorStandsFor self.old past →
            IsEligible self.old.contract (reverse past) (earliest_tick self.old.kind at due) result }
        ensures stands { (past : List ℕ) → RegulatorStandsFor self.old past → RegulatorStandsFor self.new (result ∷ past) }

        // The ticks that it keeps are such a list, and the answer joins them as the newest. No packet waits
        // longer than an interval after the newest before.
        ensures own { RegulatorStandsFor self.old self.old.recent }
        ensures last { newest self.new.recent ≡ result }
        ensures most { result ≤ max (earliest_tick self.old.kind at due)
            (newest self.old.recent + self.old.contract.interval) }
    {
        let eligible = least_eligible(&self.contract, &self.recent, earliest(self.kind, at, due));
        self.recent.push_front(eligible);
        eligible
    }
}

// The tick from which a packet may go.
fn earliest(kind: Kind, at: u64, due: u64) -> u64
    ensures { result ≡ earliest_tick kind at due }
{
    match kind {
        Kind::Rate => at,
        Kind::Jitter => at.max(due),
    }
}

// The least tick from `low` on that may follow these, newest first: it is far enough after the newest of them, and
// after the one that is a burst before it.
fn least_eligible(contract: &Contract, recent: &HeapCircularBuffer<u64>, low: u64) -> u64
    requires last { newest recent.now.items < 2 ^ 63 }
    requires keeps { Keeps contract.now (reverse recent.now.items) }
    ensures value { result ≡ eligible contract.now recent.now.items low }
    ensures valid { IsContract contract.now }
{
    let after_gap = first_after_place(recent, 0, contract.xmin());
    let after_burst = first_after_place(recent, contract.burst() as usize - 1, contract.interval());
    low.max(after_gap).max(after_burst)
}

// The first tick that is `least` ticks after the one at this place, newest first, or 0 where there is none.
fn first_after_place(recent: &HeapCircularBuffer<u64>, place: usize, least: u32) -> u64
    requires { slice_index recent.now.items place < 2 ^ 63 }
    ensures { result ≡ first_after least (drop place recent.now.items) }
{
    match recent.get(place) {
        Some(tick) => tick + u64::from(least),
        None => 0,
    }
}
