//! A sink that keeps what is written to it in memory, and fails by a plan.
ghost use Rattle.std.specs.Prelude.{◌≡◌, ◌<◌, ◌≤◌, [], Some, length, IfOk};
ghost use Rattle.byte_ends.specs.Store.{Stores};
ghost use Rattle.byte_ends.specs.Writing.{Writes};

use crate::fault_plan::FaultPlan;
use crate::reserved::add_reserved;
use crate::sink::{Put, Sink};
use net_units::OutOfMemory;
use std::alloc::Global;
use std::marker::Model;

/// A sink that keeps the bytes written to it, in room that was reserved when it was made. A write for which there is no
/// room left is a fault, and so is a planned one; it meets no other.
#[derive(Debug, Drop)]
pub struct MemSink {
    bytes: Vec<u8>,
    room: usize,
    most: usize,
    plan: FaultPlan,
}

impl Model for MemSink {
    ghost use Rattle.std.specs.Prelude.{◌≤◌, vec_len, vec_capacity};
    ghost use Rattle.byte_ends.specs.Store.{Store};

    ghost Value = { Store };

    ghost view = { λ a. record { bytes = a.bytes.items; room = a.room; most = a.most; plan = a.plan } };

    ghost invariant = { λ a. (vec_len a.bytes ≤ a.room) × (a.room ≤ vec_capacity a.bytes)
        × (1 ≤ a.most) };
}

impl MemSink {
    /// A sink with room for `room` bytes, which it reserves, that takes at most `most` of them, at least 1, in one
    /// write, and fails at the writes whose numbers, from 1, are in `fails`.
    pub fn new(
        alloc: Global,
        room: usize,
        most: usize,
        fails: Vec<u64>,
    ) -> Result<MemSink, OutOfMemory>
        requires { 1 ≤ most }
        ensures { IfOk result (λ s. s
            ≡ record {
              bytes = [];
              room = room;
              most = most;
              plan = record { fails = fails.items; calls = 0; faults = 0 };
            }) }
    {
        let bytes = Vec::with_capacity(alloc, room)?;
        Ok(MemSink {
            bytes,
            room,
            most,
            plan: FaultPlan::new(fails),
        })
    }

    /// The bytes written.
    pub fn bytes(&self) -> &[u8]
        ensures { result.now ≡ self.now.bytes }
    {
        self.bytes.as_slice()
    }

    /// How many faults it met.
    pub fn faults(&self) -> u64
        ensures { result ≡ self.now.plan.faults }
    {
        self.plan.faults()
    }
}

impl Sink for MemSink {
    ghost written = { λ s. Some s.bytes };

    ghost faults = { λ s. s.plan.faults };

    fn write(&mut self, piece: &[u8]) -> Put
        requires { 0 < length piece.now }
        ensures writes { Writes result (Some self.old.bytes) (Some self.new.bytes) piece.now
            self.old.plan.faults self.new.plan.faults }
        ensures stores { Stores result self.old self.new piece.now }
    {
        let count = self.most.min(piece.len());
        if self.plan.count_call() || self.room - self.bytes.len() < count {
            self.plan.count_fault();
            return Put::Failed;
        }
        add_reserved(&mut self.bytes, &piece[..count]);
        Put::Wrote(count)
    }
}
