//! The entries of a run, in the order of time.
ghost use Rattle.std.specs.Prelude.{◌≡◌, ◌-◌, ◌≤◌, [], ◌∷◌, ◌++◌, IsOk, IfOk, OnOk, OnErr};
ghost use Rattle.link_steps.specs.Lists.{Each};
ghost use Rattle.run_record.specs.Rows.{IsEarly, rows_of};

use crate::departures::{departures, put_in_order};
use crate::done::Done;
use crate::hops::hops_of;
use crate::rows::HopRows;
use net_units::OutOfMemory;
use std::alloc::Global;
use std::marker::Model;

/// The entries of a run.
///
/// A contract sees the list of them in the order of time, and for how many more there is room, as `spare`.
#[derive(Drop)]
pub struct Record {
    entries: Vec<Done>,
}

impl Model for Record {
    ghost use Rattle.std.specs.Prelude.{◌-◌, vec_len, vec_capacity};
    ghost use Rattle.run_record.specs.Entries.{Entries};

    ghost Value = { Entries };

    ghost view = { λ r. record { entries = r.entries.items; spare = vec_capacity r.entries - vec_len r.entries } };
}

impl Record {
    /// No entry, and no room for one. It takes no memory.
    pub fn new(alloc: Global) -> Record
        ensures { result ≡ record { entries = []; spare = 0 } }
    {
        Record {
            entries: Vec::new(alloc),
        }
    }

    /// Makes room for `more` more entries at least. Where there is that room already it takes no memory. An `Err`, which
    /// comes for want of memory alone, changes nothing.
    pub fn reserve(&mut self, more: usize) -> Result<(), OutOfMemory>
        ensures room { OnOk result (more ≤ self.new.spare) }
        ensures had_room { more ≤ self.old.spare → IsOk result }
        ensures grows { self.old.spare ≤ self.new.spare }
        ensures kept { self.new ≡ record self.old { spare = self.new.spare } }
        ensures err { OnErr result (self.new ≡ self.old) }
    {
        self.entries.reserve(more)?;
        Ok(())
    }

    /// Adds an entry after the others. Room for it was made, so it takes no memory.
    pub fn push(&mut self, done: Done)
        requires { 1 ≤ self.old.spare }
        ensures { self.new ≡ record { entries = self.old.entries ++ done ∷ []; spare = self.old.spare - 1 } }
    {
        // a push of `done` itself gets no proof with this toolchain, since it holds enums
        let Done {
            actor,
            link,
            ask,
            reply,
        } = done;
        self.entries.push_reserved(Done {
            actor,
            link,
            ask,
            reply,
        });
    }

    /// The entries, in the order of time.
    pub fn entries(&self) -> &[Done]
        ensures { result.now ≡ self.now.entries }
    {
        self.entries.as_slice()
    }

    /// One row for each departure, in the order of channel, packet and hop. An `Err` comes only for want of memory. The
    /// ticks told are before 2^63.
    pub fn rows(&self, alloc: Global) -> Result<HopRows, OutOfMemory>
        requires early { Each (λ done. IsEarly done.reply) self.now.entries }
        ensures { IfOk result (λ rows. rows ≡ rows_of self.now.entries) }
    {
        let table = hops_of(alloc, self.entries())?;
        let mut rows = departures(alloc, self.entries(), table.as_slice())?;
        put_in_order(&mut rows)?;
        Ok(HopRows::new(rows))
    }
}
