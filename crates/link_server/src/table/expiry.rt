//! Rows expire once their hold has ended: a calendar tells which, and in which tick.
ghost use Rattle.std.specs.Prelude.{◌≡◌, ◌+◌, ◌^◌, ◌<◌, ◌≤◌, List, length, map, filter, IfNone, IfSome};
ghost use Rattle.buffer_budget.specs.Parts.{whole_of};
ghost use Rattle.link_steps.specs.Account.{AccountRow, account_stays};
ghost use Rattle.link_steps.specs.Lists.{Each};
ghost use Rattle.link_steps.specs.Service.{Arrival};
ghost use Rattle.link_server.specs.Departed.{AreCounted, departed_in};
ghost use Rattle.link_server.specs.Holds.{IsListed, PlansNone, AreListed, HasEnded, StaysIfOf, open_count};
ghost use Rattle.link_server.specs.Index.{channels_in, IsIndex};
ghost use Rattle.link_server.specs.KeyedList.{position};
ghost use Rattle.link_server.specs.RowParts.{AreParts};
ghost use Rattle.link_server.specs.Rows.{row_in};
ghost use Rattle.link_server.specs.Sources.{AreReady};

use crate::keyed_list::KeyedList;
use crate::table::keeping::Keeping;
use crate::table::row_index::RowIndex;
use crate::table::rows::{key_of, take_out};
use crate::table::served_row::ServedRow;
use net_units::{Bounds, ChanNo};
use rcsp_admission::LevelSums;
use tick_calendar::Calendar;

// Puts the row on the calendar where its hold will end, once no packet is left to wait for. Room for it was reserved.
pub(crate) fn put_hold(holds: &mut Calendar, row: &ServedRow, bounds: &Bounds, clock: u64)
    requires begun { holds.old.clock ≤ clock }
    requires room { 1 ≤ holds.old.spare }
    requires last { row.now.last < 2 ^ 63 }
    ensures clock { holds.new.clock ≡ holds.old.clock }
    ensures others { (other : AccountRow) → IsListed bounds.now clock holds.old.entries other → IsListed bounds.now clock holds.new.entries other }
    ensures own { PlansNone (row_in row.now) → IsListed bounds.now clock holds.new.entries (row_in row.now) }
    ensures room { open_count (row_in row.now) + holds.old.spare ≤ holds.new.spare + 1 }
{
    if let Some(tick) = row.hold_end(bounds, clock) {
        holds.put(tick, row.chan.get());
    }
}

// Takes the rows whose hold has ended by this tick out of the table. It looks only at the rows for which an entry of the calendar
// is due.
pub(crate) fn expire(
    holds: &mut Calendar,
    rows: &mut KeyedList<ServedRow>,
    index: &RowIndex,
    sums: &mut LevelSums,
    keeping: &mut Keeping,
    bounds: &Bounds,
    clock: u64,
)
    requires listed { AreListed bounds.now clock holds.old (map row_in rows.old.items) }
    requires ready { AreReady clock rows.old.items }
    requires parts { AreParts (whole_of keeping.old.budget) bounds.now rows.old.items sums.old keeping.old }
    requires indexed { IsIndex index.now.keys.items rows.old.keys (channels_in rows.old.items) }
    ensures rows { map row_in rows.new.items ≡ filter (account_stays bounds.now clock) (map row_in rows.old.items) }
    ensures counted { (here : List Arrival) → AreCounted here (map row_in rows.old.items) (map departed_in rows.old.items) → AreCounted here (map row_in rows.new.items) (map departed_in rows.new.items) }
    ensures listed { AreListed bounds.now clock holds.new (map row_in rows.new.items) }
    ensures parts { AreParts (whole_of keeping.old.budget) bounds.now rows.new.items sums.new keeping.new }
    ensures indexed { IsIndex index.now.keys.items rows.new.keys (channels_in rows.new.items) }
    ensures server { sums.new.server ≡ sums.old.server }
{
    while let Some(number) = holds.take_due(clock) {
        if let Some(key) = ended_key(rows, index, bounds, clock, number) {
            take_out(rows, sums, keeping, bounds, key);
        }
    }
}

// The key of the row of the channel of this number, if its hold has ended by this tick.
fn ended_key(
    rows: &KeyedList<ServedRow>,
    index: &RowIndex,
    bounds: &Bounds,
    clock: u64,
    number: u32,
) -> Option<usize>
    requires indexed { IsIndex index.now.keys.items rows.now.keys (channels_in rows.now.items) }
    requires ready { AreReady clock rows.now.items }
    ensures none { IfNone result (Each (StaysIfOf bounds.now clock number) (map row_in rows.now.items)) }
    ensures some { IfSome result (λ key. HasEnded bounds.now clock number rows.now.items (position rows.now.keys key)) }
{
    let key = key_of(rows, index, ChanNo::new(number)?)?;
    if rows[key].has_ended(bounds, clock) {
        return Some(key);
    }
    None
}
