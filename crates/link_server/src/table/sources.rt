//! The sources' part of a tick: the packets that are planned for it arrive.
ghost use Rattle.std.specs.Prelude.{◌≡◌, ◌+◌, ◌^◌, ◌<◌, ◌≤◌, ◌++◌, suc, if◌then◌else◌, All, length, map};
ghost use Rattle.link_steps.specs.Account.{account_packet, account_after_step};
ghost use Rattle.link_steps.specs.Sources.{taken_by, dropped_by};
ghost use Rattle.link_server.specs.Plans.{ArePlanned, AreCalled};
ghost use Rattle.link_server.specs.Departed.{AreCounted, departed_in};
ghost use Rattle.link_server.specs.Rows.{row_in, IsWithinLevels, AreWithin};
ghost use Rattle.link_server.specs.Sources.{own_step, served_rows_after, lost_by_rows, queue_after, IsReady, MayBring};

use crate::keyed_list::KeyedList;
use crate::queue::Queue;
use crate::table::plans::put_plan;
use crate::table::served_row::ServedRow;
use net_units::Bounds;
use tick_calendar::Calendar;

// The rows that have their turn, in their order, take the packets that are planned for this tick, and their next ones come on
// the calendar. The others have none for it. It answers how many packets found no slot free, and so were dropped.
pub(crate) fn take_turns(
    rows: &mut KeyedList<ServedRow>,
    turns: &[usize],
    calendar: &mut Calendar,
    queue: &mut Queue,
    bounds: &Bounds,
    clock: u64,
) -> u32
    requires called { AreCalled clock calendar.old turns.now rows.old.items }
    requires later { All (λ entry. clock < entry.0) calendar.old.entries }
    requires within { AreWithin (length bounds.now) rows.old.items }
    requires may { MayBring bounds.now clock queue.old (map row_in rows.old.items) }
    requires counted { AreCounted queue.old.here (map row_in rows.old.items) (map departed_in rows.old.items) }
    ensures lost { result ≡ lost_by_rows bounds.now queue.old.here clock rows.old.items }
    ensures keys { rows.new.keys ≡ rows.old.keys }
    ensures rows { map row_in rows.new.items ≡ served_rows_after bounds.now queue.old.here clock queue.old.taken rows.old.items }
    ensures kept { queue.new ≡ queue_after bounds.now clock (map row_in rows.old.items) queue.new.looked queue.old }
    ensures looked { queue.new.looked ≤ clock }
    ensures planned { ArePlanned clock calendar.new (map row_in rows.new.items) }
    ensures departed { map departed_in rows.new.items ≡ map departed_in rows.old.items }
{
    let mut lost = 0;
    for place in turns {
        let key = rows.key_at(*place);
        let row = &mut rows[key];
        if take_source_packet(row, queue, bounds, clock) {
            lost += 1;
        }
        put_plan(calendar, row);
    }
    lost
}

// The row takes the packet that is planned for this tick, if there is one. It answers whether that found no slot free,
// and so was dropped.
fn take_source_packet(row: &mut ServedRow, queue: &mut Queue, bounds: &Bounds, clock: u64) -> bool
    requires early { clock < 2 ^ 61 }
    requires ready { IsReady clock (row_in row.old) }
    requires within { IsWithinLevels (length bounds.now) row.old }
    requires looked { queue.old.looked ≤ clock }
    requires room { length queue.old.here + taken_by (own_step bounds.now clock row.old) ≤ queue.old.room }
    requires numbers { queue.old.taken + taken_by (own_step bounds.now clock row.old) < 2 ^ 64 }
    ensures lost { (if result then 1 else 0) ≡ dropped_by (own_step bounds.now clock row.old) }
    ensures row { row_in row.new ≡ account_after_step (own_step bounds.now clock row.old) clock (suc queue.old.taken) (row_in row.old) }
    ensures kept { queue.new ≡ record queue.old { taken = queue.old.taken + taken_by (own_step bounds.now clock row.old); here = queue.old.here ++ account_packet (own_step bounds.now clock row.old) clock (suc queue.old.taken) (row_in row.old); looked = queue.new.looked } }
    ensures looked { queue.new.looked ≤ clock }
    ensures departed { row.new.departed ≡ row.old.departed }
{
    let Some(size) = row.next_planned(clock) else {
        return false;
    };
    if !row.has_slot(bounds) {
        return true;
    }
    let packet = row.take(size, 0, queue.taken() + 1, clock);
    queue.push(&packet, clock);
    false
}
