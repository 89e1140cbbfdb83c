//! What is kept of the source of a channel.
ghost use Rattle.std.specs.Prelude.{◌≡◌, ℕ, ◌+◌, ◌<◌, ◌≤◌, ◌^◌, ◌++◌, [], Some, List, IfOk, OnOk, filter};
ghost use Rattle.net_units.specs.Numbers.{channel_number};
ghost use Rattle.net_units.specs.declared.numbers.ChanNo.{ChanNo as Chan};
ghost use Rattle.channel_report.specs.Sources.{chan_of, is_made, planned_after, refused_by, ticks_from};

use crate::source_act::Act;
use net_units::OutOfMemory;
use std::alloc::Global;

// No clock of a run reaches this tick.
const NEVER: u64 = 1 << 62;

// What the source of a channel has planned, and the sends that were refused.
#[derive(Drop)]
pub(crate) struct ChannelTally {
    // The ticks for which it has planned packets, without the cancelled ones, as far as they lie before `NEVER`.
    pub(crate) ticks: Vec<u64>,
    // How many sends were refused.
    pub(crate) refused: u64,
}

impl ChannelTally {
    ghost use Rattle.channel_report.specs.ChannelTallies.{KeepsTally, never};

    // Before the first entry.
    pub(crate) fn new(alloc: Global) -> ChannelTally
        ensures { KeepsTally [] 0 result }
    {
        ChannelTally {
            ticks: Vec::new(alloc),
            refused: 0,
        }
    }

    // Keeps what an entry does for this source, where the link's clock was this.
    pub(crate) fn keep(&mut self, alloc: Global, clock: u64, act: &Act) -> Result<(), OutOfMemory>
        requires few { self.old.refused < 2 ^ 62 }
        ensures { OnOk result ((number : ℕ) (chan : Chan) (planned : List ℕ) (refused : ℕ) → chan_of act.now ≡ Some chan → channel_number chan ≡ number → KeepsTally planned refused self.old
            → KeepsTally (planned_after number clock planned act.now) (refused_by number act.now + refused) self.new) }
    {
        match act {
            Act::Plans {
                tick,
                gap,
                count,
                ..
            } => self.plan(*tick, *gap, *count),
            Act::Refuses { .. } => {
                self.refused += 1;
                Ok(())
            }
            Act::Cancels { .. } => {
                self.ticks = made(alloc, self.ticks.as_slice(), clock)?;
                Ok(())
            }
            Act::Nothing => Ok(()),
        }
    }

    // Plans `count` packets, the first at a tick and then one every gap.
    fn plan(&mut self, tick: u64, gap: u64, count: u64) -> Result<(), OutOfMemory>
        ensures ticks { OnOk result (self.new.ticks.items ≡ self.old.ticks.items ++ filter (is_made never) (ticks_from tick gap count)) }
        ensures refused { self.new.refused ≡ self.old.refused }
    {
        let mut next = tick;
        for _planned in 0..count {
            if next >= NEVER {
                return Ok(());
            }
            self.ticks.push(next)?;
            next = next.saturating_add(gap);
        }
        Ok(())
    }
}

// The ticks below the clock.
pub(crate) fn made(alloc: Global, ticks: &[u64], clock: u64) -> Result<Vec<u64>, OutOfMemory>
    ensures { IfOk result (λ kept. kept.items ≡ filter (is_made clock) ticks.now) }
{
    let mut kept = Vec::new(alloc);
    for tick in ticks {
        if *tick < clock {
            kept.push(*tick)?;
        }
    }
    Ok(kept)
}
