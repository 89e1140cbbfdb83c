//! The planned faults of a source or a sink in memory.
ghost use Rattle.std.specs.Prelude.{◌≡◌, ◌↔◌, IsTrue};
ghost use Rattle.byte_ends.specs.Faults.{FaultsRise, after_call, after_fault, FailsNext};

use std::marker::Model;

/// Which calls are to fail, how many were made, and how many faults were met.
#[derive(Debug, Drop)]
pub struct FaultPlan {
    fails: Vec<u64>,
    calls: u64,
    faults: u64,
}

impl Model for FaultPlan {
    ghost use Rattle.byte_ends.specs.Faults.{Plan};

    ghost Value = { Plan };

    ghost view = { λ a. record { fails = a.fails.items; calls = a.calls; faults = a.faults } };
}

impl FaultPlan {
    /// A plan for an object that hasn't been called yet. `fails` has the numbers, from 1, of the calls that are to
    /// fail, in any order.
    pub fn new(fails: Vec<u64>) -> FaultPlan
        ensures { result ≡ record { fails = fails.items; calls = 0; faults = 0 } }
    {
        FaultPlan {
            fails,
            calls: 0,
            faults: 0,
        }
    }

    /// Counts one call, and tells whether it is to fail.
    pub fn count_call(&mut self) -> bool
        ensures fails { IsTrue result ↔ FailsNext self.old }
        ensures after { self.new ≡ after_call self.old }
    {
        self.calls = self.calls.saturating_add(1);
        self.fails.contains(&self.calls)
    }

    /// Counts one fault.
    pub fn count_fault(&mut self)
        ensures after { self.new ≡ after_fault self.old }
        ensures rises { FaultsRise self.old.faults self.new.faults }
    {
        self.faults = self.faults.saturating_add(1);
    }

    /// How many faults were met.
    pub fn faults(&self) -> u64
        ensures { result ≡ self.now.faults }
    {
        self.faults
    }
}
