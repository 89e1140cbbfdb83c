//! The table of a link's rows: each row as the link serves it, where a channel's stands, when its next packets are planned, and what
//! the rows keep together.
ghost use Rattle.std.specs.Prelude.{◌≡◌, ℕ, ◌+◌, ◌-◌, ◌^◌, ◌<◌, ◌≤◌, ◌∷◌, ◌++◌, [], List, filter, find, length, map, slice_get, None, Some, IfNone, IfSome, IfOk, IfErr, OnOk, OnErr, MatchResult};
ghost use Rattle.std.specs.Vec.{vec_capacity};
ghost use Rattle.net_units.specs.Limits.{most_bound};
ghost use Rattle.net_units.specs.LevelBounds.{last_bound};
ghost use Rattle.net_units.specs.Numbers.{channel_number, level_number};
ghost use Rattle.traffic_contract.specs.Admission.{total, best_level, refused_sum};
ghost use Rattle.link_steps.specs.Buffer.{held_units};
ghost use Rattle.link_steps.specs.Account.{is_account_of, is_account_at_hop, account_terms, account_stays, account_relaxed, account_planned, account_closed, account_arrived_row, account_arrived, account_packets, account_rows_after, account_dropped};
ghost use Rattle.link_steps.specs.Lists.{Each, change_first, without_first};
ghost use Rattle.link_steps.specs.Quiet.{RowRests};
ghost use Rattle.link_steps.specs.Reservation.{admitted};
ghost use Rattle.link_steps.specs.Shape.{server_of};
ghost use Rattle.link_server.specs.Index.{IsIndex};
ghost use Rattle.link_server.specs.RoomFor.{IsWider, HasRoomFor};
ghost use Rattle.link_steps.specs.Service.{Arrival};
ghost use Rattle.link_server.specs.Departed.{AreCounted, IsCounted, departed_after};
ghost use Rattle.link_server.specs.Packets.{arrival_in};
ghost use Rattle.link_server.specs.Rows.{row_in, IsWithinLevels};
ghost use Rattle.link_server.specs.Sources.{IsReady, MayBring, queue_after};

mod expiry;
pub(crate) mod keeping;
pub(crate) mod plans;
pub(crate) mod row_index;
pub(crate) mod rows;
pub(crate) mod served_row;
mod sources;

use crate::keyed_list::KeyedList;
use crate::planned::Planned;
use crate::queue::Queue;
use crate::queue::held_packet::{Gone, HeldPacket};
use crate::table::expiry::{expire, put_hold};
use crate::table::keeping::Keeping;
use crate::table::plans::{Plans, put_plan};
use crate::table::row_index::RowIndex;
use crate::table::rows::{held_key, key_of, take_out};
use crate::table::served_row::ServedRow;
use crate::table::sources::take_turns;
use link_steps::{LinkShape, Packet, Refusal, Why};
use net_units::{Bounds, ChanNo, Level, OutOfMemory};
use rcsp_admission::{LevelSums, NoLevel};
use std::alloc::Global;
use std::marker::Model;
use tick_calendar::Calendar;
use traffic_contract::Contract;

// The rows of a link. A contract sees the record `TableAccount`.
#[derive(Drop)]
pub(crate) struct Table {
    // Those of the link's levels.
    bounds: Bounds,
    // The tick in which the link last looked which rows fall due.
    looked: u64,
    // In the order of their reserves.
    rows: KeyedList<ServedRow>,
    index: RowIndex,
    // When the holds of closing rows end, with the numbers of their channels.
    holds: Calendar,
    plans: Plans,
    sums: LevelSums,
    // What the rows keep together.
    keeping: Keeping,
}

impl Model for Table {
    ghost use Rattle.link_server.specs.TableAccount.{TableAccount};

    ghost Value = { TableAccount };

    ghost use Rattle.link_server.specs.TableParts.{table_seen, IsTable};

    ghost view = { table_seen };

    ghost invariant = { IsTable };
}

impl Table {
    ghost use Rattle.link_server.specs.Changes.{HasRow, IsRowAtHop, MayCommit, MayPlan, MayClose, MayAdd, AreSoonWith, TakesAs, arrive_rule};
    ghost use Rattle.link_server.specs.Sound.{all_places_of};

    // The table of no rows, at a link of this shape.
    pub(crate) fn new(alloc: Global, shape: &LinkShape) -> Result<Table, OutOfMemory>
        ensures { IfOk result (λ made. made ≡ record { rows = []; departed = []; server = server_of shape.now; buffer = shape.now.buffer; looked = 0 }) }
    {
        let blocking = shape.blocking();
        Ok(Table {
            bounds: shape.bounds,
            looked: 0,
            rows: KeyedList::new(alloc),
            index: RowIndex::new(alloc),
            holds: Calendar::new(alloc)?,
            plans: Plans::new(alloc)?,
            sums: LevelSums::new(alloc, shape.bounds, shape.rate, blocking, shape.test),
            keeping: Keeping::new(shape.buffer),
        })
    }

    // How many rows there are.
    pub(crate) fn len(&self) -> usize
        ensures { result ≡ length self.now.rows }
    {
        self.rows.len()
    }

    // The channel's row, if one is held.
    pub(crate) fn row_of(&self, chan: ChanNo) -> Option<&ServedRow>
        ensures none { IfNone result (find (is_account_of chan) self.now.rows ≡ None) }
        ensures some { IfSome result (λ row. find (is_account_of chan) self.now.rows ≡ Some (row_in row.now)) }
        ensures counted { (here : List Arrival) → AreCounted here self.now.rows self.now.departed → IfSome result (λ row. IsCounted here (row_in row.now) row.now.departed) }
        ensures within { IfSome result (λ row. IsWithinLevels (length self.now.server.bounds) row.now) }
    {
        let key = key_of(&self.rows, &self.index, chan)?;
        Some(&self.rows[key])
    }

    // The channel's row, if one is held and this is its first hop, or else a later one.
    pub(crate) fn row_at_hop(&self, chan: ChanNo, first: bool) -> Option<&ServedRow>
        ensures none { IfNone result (find (is_account_at_hop chan first) self.now.rows ≡ None) }
        ensures some { IfSome result (λ row. IsRowAtHop chan first self.now.rows (row_in row.now)) }
    {
        let row = &self.rows[key_of(&self.rows, &self.index, chan)?];
        if row.is_at_hop(chan, first) {
            return Some(row);
        }
        None
    }

    // The row at this place.
    pub(crate) fn row(&self, place: usize) -> &ServedRow
        requires inside { place < length self.now.rows }
        ensures row { slice_get self.now.rows place ≡ Some (row_in result.now) }
        ensures within { IsWithinLevels (length self.now.server.bounds) result.now }
    {
        &self.rows[self.rows.key_at(place)]
    }

    // The best level of a new contract, or why there is none.
    pub(crate) fn best(&self, contract: &Contract) -> Result<Level, NoLevel>
        ensures level { MatchResult result
            (λ level. best_level self.now.server (map admitted (map account_terms self.now.rows)) contract.now ≡ Some (level_number level))
            (λ _. best_level self.now.server (map admitted (map account_terms self.now.rows)) contract.now ≡ None) }
        ensures within { IfOk result (λ level. level_number level ≤ length self.now.server.bounds) }
        ensures sum { IfErr result (λ none. none.sum ≡ refused_sum self.now.server (map admitted (map account_terms self.now.rows)) contract.now) }
        ensures bound { IfErr result (λ none. none.bound ≡ last_bound self.now.server.bounds) }
    {
        self.sums.best(contract)
    }

    // The units of the buffer that no row keeps.
    pub(crate) fn free(&self) -> u64
        ensures { result ≡ self.now.buffer - total (held_units self.now.server.bounds) (map account_terms self.now.rows) }
    {
        self.keeping.budget.free()
    }

    // The places that the packets of the rows may want together with those of one row more.
    pub(crate) fn places_with(&self, row: &ServedRow) -> u64
        requires within { IsWithinLevels (length self.now.server.bounds) row.now }
        ensures value { result ≡ total (all_places_of self.now.server.bounds) self.now.rows + all_places_of self.now.server.bounds (row_in row.now) }
        ensures small { result < 2 ^ 56 }
    {
        self.keeping.places + 1 + row.slots(&self.bounds)
    }

    // Adds a row after the others, with all memory that it can ever need. An `Err` leaves the table as it was.
    pub(crate) fn add(&mut self, row: ServedRow) -> Result<(), OutOfMemory>
        requires few { length self.old.rows < 2 ^ 32 }
        requires may { MayAdd self.old (row_in row) }
        ensures added { OnOk result (self.new ≡ record self.old { rows = self.old.rows ++ row_in row ∷ []; departed = self.old.departed ++ row.departed ∷ [] }) }
        ensures same { OnErr result (self.new ≡ self.old) }
    {
        make_room(
            &mut self.rows,
            &mut self.index,
            &mut self.holds,
            &mut self.plans,
            &mut self.sums,
            row.chan,
        )?;
        let chan = row.chan;
        self.keeping.hold(&row, &self.bounds);
        self.sums.add(chan.get(), row.contract, row.level);
        let key = self.rows.push(row);
        self.index.put(chan, key);
        Ok(())
    }

    // Commits the channel's row.
    pub(crate) fn commit(&mut self, chan: ChanNo, level: Level, up_bound: u64)
        requires level { level_number level ≤ length self.old.server.bounds }
        requires bound { up_bound ≤ most_bound }
        requires may { HasRow (MayCommit self.old.server.bounds level up_bound) chan self.old.rows }
        ensures { self.new ≡ record self.old { rows = change_first (is_account_of chan) (account_relaxed level up_bound) self.old.rows } }
    {
        let key = held_key(&self.rows, &self.index, chan);
        let row = &mut self.rows[key];
        self.keeping.give_back(row, &self.bounds);
        self.sums.move_to(row.chan.get(), level);
        row.commit(level, up_bound, &self.bounds);
        self.keeping.hold(row, &self.bounds);
    }

    // Takes the channel's row out.
    pub(crate) fn remove(&mut self, chan: ChanNo)
        requires held { HasRow (λ row. Unit {0}) chan self.old.rows }
        ensures rows { self.new ≡ record self.old { rows = without_first (is_account_of chan) self.old.rows; departed = self.new.departed } }
        ensures counted { (here : List Arrival) → AreCounted here self.old.rows self.old.departed → AreCounted here self.new.rows self.new.departed }
    {
        let key = held_key(&self.rows, &self.index, chan);
        take_out(
            &mut self.rows,
            &mut self.sums,
            &mut self.keeping,
            &self.bounds,
            key,
        );
    }

    // Plans packets of the channel's row.
    pub(crate) fn plan(&mut self, chan: ChanNo, planned: Planned)
        requires looked { self.old.looked ≤ planned.tick }
        requires may { HasRow MayPlan chan self.old.rows }
        ensures { self.new ≡ record self.old { rows = change_first (is_account_of chan) (account_planned planned.tick planned.count planned.gap planned.size) self.old.rows } }
    {
        let key = held_key(&self.rows, &self.index, chan);
        let row = &mut self.rows[key];
        row.plan(planned);
        put_plan(&mut self.plans.calendar, row);
    }

    // Closes the channel's row, with the count of its packets, in the tick of the clock.
    pub(crate) fn close(&mut self, chan: ChanNo, count: u64, clock: u64)
        requires looked { self.old.looked ≤ clock }
        requires may { HasRow MayClose chan self.old.rows }
        ensures { self.new ≡ record self.old { rows = change_first (is_account_of chan) (account_closed count) self.old.rows; looked = clock } }
    {
        let key = held_key(&self.rows, &self.index, chan);
        let row = &mut self.rows[key];
        row.close(count);
        put_hold(&mut self.holds, row, &self.bounds, clock);
        self.looked = clock;
    }

    // The packet's row takes it from the link before, or refuses it, in the tick of the clock. The packet has `number`, the next arrival
    // number of the link.
    pub(crate) fn take(
        &mut self,
        packet: &Packet,
        number: u64,
        clock: u64,
    ) -> Result<HeldPacket, Refusal>
        requires looked { self.old.looked ≤ clock }
        requires early { clock < 2 ^ 61 }
        requires size { 1 ≤ packet.now.size }
        requires due { packet.now.due < 2 ^ 62 }
        requires ready { Each (IsReady clock) self.old.rows }
        requires soon { AreSoonWith clock number packet.now self.old }
        ensures refused { IfErr result (λ refusal. (here : List Arrival) → AreCounted here self.old.rows self.old.departed → Some refusal ≡ arrive_rule self.old.server.bounds here packet.now (find (is_account_of packet.now.chan) self.old.rows)) }
        ensures same { OnErr result (self.new ≡ self.old) }
        ensures taken { IfOk result (λ taken. HasRow (TakesAs clock number packet.now self.old (arrival_in taken)) packet.now.chan self.old.rows) }
        ensures table { OnOk result (self.new ≡ record self.old { rows = change_first (is_account_of packet.now.chan) (account_arrived_row clock number packet.now) self.old.rows; looked = clock }) }
    {
        let Some(key) = key_of(&self.rows, &self.index, packet.chan) else {
            return Err(Refusal::Stray { why: Why::NoRow });
        };
        if let Some(refusal) = self.rows[key].arrive_refusal(packet, &self.bounds) {
            return Err(refusal);
        }
        let row = &mut self.rows[key];
        let taken = row.take(packet.size, packet.due, number, clock);
        put_hold(&mut self.holds, row, &self.bounds, clock);
        self.looked = clock;
        Ok(taken)
    }

    // Takes out the rows whose hold has ended by this tick. It looks only at those of which the calendar says so.
    pub(crate) fn expire(&mut self, clock: u64)
        requires looked { self.old.looked ≤ clock }
        requires ready { Each (IsReady clock) self.old.rows }
        ensures rows { self.new ≡ record self.old { rows = filter (account_stays self.old.server.bounds clock) self.old.rows; departed = self.new.departed; looked = clock } }
        ensures counted { (here : List Arrival) → AreCounted here self.old.rows self.old.departed → AreCounted here self.new.rows self.new.departed }
    {
        self.looked = clock;
        expire(
            &mut self.holds,
            &mut self.rows,
            &self.index,
            &mut self.sums,
            &mut self.keeping,
            &self.bounds,
            clock,
        );
    }

    // The rows, in their order, take the packets that are planned for this tick. It answers how many packets found no slot
    // free, and so were dropped. It looks only at the rows for which the calendar has one.
    pub(crate) fn take_source_packets(&mut self, queue: &mut Queue, clock: u64) -> u32
        requires looked { self.old.looked ≤ clock }
        requires may { MayBring self.old.server.bounds clock queue.old self.old.rows }
        requires counted { AreCounted queue.old.here self.old.rows self.old.departed }
        ensures lost { result ≡ account_dropped self.old.server.bounds queue.old.here clock self.old.rows }
        ensures table { self.new ≡ record self.old { rows = account_rows_after self.old.server.bounds queue.old.here clock queue.old.taken self.old.rows; looked = clock } }
        ensures queue { queue.new ≡ queue_after self.old.server.bounds clock self.old.rows queue.new.looked queue.old }
        ensures queue_looked { queue.new.looked ≤ clock }
    {
        self.looked = clock;
        self.plans.call(&self.rows, &self.index, clock);
        take_turns(
            &mut self.rows,
            &self.plans.turns,
            &mut self.plans.calendar,
            queue,
            &self.bounds,
            clock,
        )
    }

    // The packet that leaves the link, if one does, departs: its row counts it, if that is still held.
    pub(crate) fn depart(&mut self, left: Option<Gone>)
        ensures { self.new ≡ record self.old { departed = departed_after left self.old.rows self.old.departed } }
    {
        let Some(gone) = left else {
            return;
        };
        let Some(key) = key_of(&self.rows, &self.index, gone.chan) else {
            return;
        };
        let row = &mut self.rows[key];
        row.depart(gone.lead);
    }

    // A tick before which no row's hold ends and no packet of one is planned.
    pub(crate) fn rests_until(&self) -> u64
        ensures { (clock : ℕ) → self.now.looked ≤ clock → Each (RowRests self.now.server.bounds clock result) self.now.rows }
    {
        self.holds
            .rests_until()
            .min(self.plans.calendar.rests_until())
    }
}

// Makes room for one row more, of this channel, in each part of a table. The parts stay, an `Err` or not.
fn make_room(
    rows: &mut KeyedList<ServedRow>,
    index: &mut RowIndex,
    holds: &mut Calendar,
    plans: &mut Plans,
    sums: &mut LevelSums,
    chan: ChanNo,
) -> Result<(), OutOfMemory>
    requires few { length rows.old.items < 2 ^ 32 }
    ensures rows { rows.new ≡ record rows.old { spare = rows.new.spare } }
    ensures leads { (keys channels : List ℕ) → IsIndex index.old.keys.items keys channels → IsIndex index.new.keys.items keys channels }
    ensures holds { IsWider holds.old holds.new }
    ensures plans { IsWider plans.old.calendar plans.new.calendar }
    ensures turns { vec_capacity plans.old.turns ≤ vec_capacity plans.new.turns }
    ensures sums { sums.new ≡ record sums.old { spare = sums.new.spare } }
    ensures fits { OnOk result (HasRoomFor chan rows.new index.new.keys.items holds.new plans.new sums.new) }
{
    let all = rows.len() + 1;
    rows.reserve(1)?;
    sums.reserve(1)?;
    index.reserve(chan)?;
    holds.reserve(all)?;
    plans.reserve(all)
}
