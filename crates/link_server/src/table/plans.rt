//! When the rows' next packets are planned: a calendar tells which rows bring a packet in a tick.
ghost use Rattle.std.specs.Prelude.{◌≡◌, ◌+◌, ◌<◌, ◌≤◌, ℕ, true, false, [], IfOk, IfNone, IfSome, OnOk, All, length, map};
ghost use Rattle.std.specs.Vec.{vec_capacity};
ghost use Rattle.link_steps.specs.Account.{AccountRow};
ghost use Rattle.link_steps.specs.Lists.{Each};
ghost use Rattle.link_server.specs.Index.{channels_in, IsIndex};
ghost use Rattle.link_server.specs.Planned.{IsPlannedAhead};
ghost use Rattle.link_server.specs.KeyedList.{AreRising};
ghost use Rattle.link_server.specs.Plans.{ArePlanned, AreCalled, IsPlaceOfKey, IsTold, RestsIfOf, idle_count, is_turn};
ghost use Rattle.link_server.specs.Rows.{row_in};
ghost use Rattle.link_server.specs.Sources.{AreReady};

use crate::keyed_list::KeyedList;
use crate::table::row_index::RowIndex;
use crate::table::rows::key_of;
use crate::table::served_row::ServedRow;
use net_units::{ChanNo, OutOfMemory};
use std::alloc::Global;
use tick_calendar::Calendar;

// The ticks of the rows' next packets, and the rows that have their turn in a tick.
#[derive(Drop)]
pub(crate) struct Plans {
    // With the numbers of the rows' channels.
    pub(crate) calendar: Calendar,
    // The places of the rows whose turn it is, in their order. There is room for all rows.
    pub(crate) turns: Vec<usize>,
}

impl Plans {
    // The plans of no rows.
    pub(crate) fn new(alloc: Global) -> Result<Plans, OutOfMemory>
        ensures { IfOk result (λ plans. plans.calendar ≡ record { entries = []; spare = 0; clock = 0 }) }
    {
        Ok(Plans {
            calendar: Calendar::new(alloc)?,
            turns: Vec::new(alloc),
        })
    }

    // Makes room for this many rows. The calendar stays, an `Err` or not.
    pub(crate) fn reserve(&mut self, rows: usize) -> Result<(), OutOfMemory>
        ensures room { OnOk result (rows ≤ self.new.calendar.spare) }
        ensures turns { OnOk result (rows ≤ vec_capacity self.new.turns) }
        ensures kept { self.new.calendar ≡ record self.old.calendar { spare = self.new.calendar.spare } }
        ensures grows { self.old.calendar.spare ≤ self.new.calendar.spare }
        ensures wider { vec_capacity self.old.turns ≤ vec_capacity self.new.turns }
    {
        self.turns.clear();
        self.turns.reserve(rows)?;
        self.calendar.reserve(rows)?;
        Ok(())
    }

    // Calls the rows for which a packet is planned for this tick, and takes their entries out. It looks only at the rows for
    // which an entry is due.
    pub(crate) fn call(&mut self, rows: &KeyedList<ServedRow>, index: &RowIndex, clock: u64)
        requires planned { ArePlanned clock self.old.calendar (map row_in rows.now.items) }
        requires ready { AreReady clock rows.now.items }
        requires indexed { IsIndex index.now.keys.items rows.now.keys (channels_in rows.now.items) }
        requires room { length rows.now.items ≤ vec_capacity self.old.turns }
        ensures called { AreCalled clock self.new.calendar self.new.turns.items rows.now.items }
        ensures later { All (λ entry. clock < entry.0) self.new.calendar.entries }
        ensures capacity { vec_capacity self.new.turns ≡ vec_capacity self.old.turns }
    {
        self.turns.clear();
        while let Some(number) = self.calendar.take_due(clock) {
            if let Some(place) = planned_place(rows, index, clock, number) {
                add_turn(&mut self.turns, place);
            }
        }
    }
}

// Puts the row's next packet on the calendar, if one is left. Room for it was reserved.
pub(crate) fn put_plan(calendar: &mut Calendar, row: &ServedRow)
    requires ahead { IsPlannedAhead calendar.old.clock row.now.planned }
    requires room { 1 ≤ calendar.old.spare }
    ensures clock { calendar.new.clock ≡ calendar.old.clock }
    ensures others { (other : AccountRow) → IsTold calendar.old.entries other → IsTold calendar.new.entries other }
    ensures own { IsTold calendar.new.entries (row_in row.now) }
    ensures room { idle_count (row_in row.now) + calendar.old.spare ≤ calendar.new.spare + 1 }
{
    if let Some(tick) = row.planned.next() {
        calendar.put(tick, row.chan.get());
    }
}

// Where the row of the channel of this number stands, if it has a packet planned for this tick.
fn planned_place(
    rows: &KeyedList<ServedRow>,
    index: &RowIndex,
    clock: u64,
    number: u32,
) -> Option<usize>
    requires indexed { IsIndex index.now.keys.items rows.now.keys (channels_in rows.now.items) }
    requires ready { AreReady clock rows.now.items }
    ensures none { IfNone result (Each (RestsIfOf clock number) (map row_in rows.now.items)) }
    ensures some { IfSome result (IsPlaceOfKey number rows.now.items) }
{
    let key = key_of(rows, index, ChanNo::new(number)?)?;
    if rows[key].planned.is_for(clock) {
        return Some(rows.place(key));
    }
    None
}

// Adds the place to those that have their turn, unless it has it already. It takes no memory.
fn add_turn(turns: &mut Vec<usize>, place: usize)
    requires rising { AreRising 0 (vec_capacity turns.old) turns.old.items }
    requires inside { place < vec_capacity turns.old }
    ensures rising { (high : ℕ) → AreRising 0 high turns.old.items → place < high → AreRising 0 high turns.new.items }
    ensures called { is_turn turns.new.items place ≡ true }
    ensures others { (other : ℕ) → is_turn turns.new.items other ≡ false → is_turn turns.old.items other ≡ false }
    ensures one { length turns.new.items ≤ length turns.old.items + 1 }
    ensures capacity { vec_capacity turns.new ≡ vec_capacity turns.old }
{
    if let Err(at) = turns.binary_search(&place) {
        if turns.insert(at, place).is_err() {
            unreachable!();
        }
    }
}
