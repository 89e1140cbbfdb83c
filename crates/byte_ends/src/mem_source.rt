//! Bytes in memory as a source that fails by a plan.
ghost use Rattle.std.specs.Prelude.{◌≡◌, ◌<◌, ◌≤◌, Some, length};
ghost use Rattle.byte_ends.specs.Reading.{Reads};
ghost use Rattle.byte_ends.specs.Supply.{SuppliesByPlan};

use crate::fault_plan::FaultPlan;
use crate::source::{Source, Took};
use crate::sure_source::SureSource;
use std::marker::Model;

/// A source over bytes in memory whose calls fail by a plan. Each planned failure is a fault; it meets no other.
#[derive(Debug, Drop)]
pub struct MemSource {
    supply: SureSource,
    plan: FaultPlan,
}

impl Model for MemSource {
    ghost use Rattle.byte_ends.specs.Supply.{FaultySupply};

    ghost Value = { FaultySupply };

    ghost view = { λ a. record { supply = a.supply; plan = a.plan } };
}

impl MemSource {
    /// A source that has these bytes left, gives at most `most` of them, at least 1, in one read, and fails at the
    /// reads whose numbers, from 1, are in `fails`.
    pub fn new(bytes: Vec<u8>, most: usize, fails: Vec<u64>) -> MemSource
        requires { 1 ≤ most }
        ensures supply { result.supply ≡ record { left = bytes.items; most = most } }
        ensures plan { result.plan ≡ record { fails = fails.items; calls = 0; faults = 0 } }
    {
        MemSource {
            supply: SureSource::new(bytes, most),
            plan: FaultPlan::new(fails),
        }
    }

    /// How many faults it met.
    pub fn faults(&self) -> u64
        ensures { result ≡ self.now.plan.faults }
    {
        self.plan.faults()
    }
}

impl Source for MemSource {
    ghost left = { λ s. Some s.supply.left };

    ghost faults = { λ s. s.plan.faults };

    fn read(&mut self, room: &mut [u8]) -> Took
        requires { 0 < length room.old }
        ensures reads { Reads result (Some self.old.supply.left) (Some self.new.supply.left) room.new
            self.old.plan.faults self.new.plan.faults }
        ensures supplies { SuppliesByPlan result self.old self.new room.new }
    {
        if self.plan.count_call() {
            self.plan.count_fault();
            return Took::Failed;
        }
        self.supply.read(room)
    }
}
