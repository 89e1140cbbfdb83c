//! The rows of a link together: under which key a channel's stands, and the need and the reach of a new one.
ghost use Rattle.std.specs.Prelude.{◌≡◌, ◌<◌, ◌≤◌, IfNone, IfSome, length, map, remove};
ghost use Rattle.buffer_budget.specs.Parts.{whole_of};
ghost use Rattle.net_units.specs.Numbers.{level_number};
ghost use Rattle.net_units.specs.Limits.{most_bound};
ghost use Rattle.net_units.specs.LevelBounds.{reach_of};
ghost use Rattle.rcsp_admission.specs.Sums.{IsDistinct};
ghost use Rattle.link_steps.specs.Buffer.{need_of};
ghost use Rattle.link_server.specs.Index.{channels_in, IsIndex};
ghost use Rattle.link_server.specs.KeyedList.{position};
ghost use Rattle.link_server.specs.RowParts.{AreParts};
ghost use Rattle.link_server.specs.Rows.{summed, IsAbsent, IsKeyOf};

use crate::keyed_list::KeyedList;
use crate::table::keeping::Keeping;
use crate::table::row_index::RowIndex;
use crate::table::served_row::{ServedRow, units_for};
use net_units::{Bounds, ChanNo, Level};
use rcsp_admission::LevelSums;
use traffic_contract::Contract;

// The key of the channel's row.
pub(crate) fn key_of(rows: &KeyedList<ServedRow>, index: &RowIndex, chan: ChanNo) -> Option<usize>
    requires { IsIndex index.now.keys.items rows.now.keys (channels_in rows.now.items) }
    ensures none { IfNone result (IsAbsent chan rows.now.items) }
    ensures some { IfSome result (IsKeyOf chan rows.now) }
{
    let key = index.key(chan)?;
    let row = rows.get(key)?;
    if row.chan.get() == chan.get() {
        return Some(key);
    }
    None
}

// The key of the channel's row, which is held.
pub(crate) fn held_key(rows: &KeyedList<ServedRow>, index: &RowIndex, chan: ChanNo) -> usize
    requires indexed { IsIndex index.now.keys.items rows.now.keys (channels_in rows.now.items) }
    requires held { IsAbsent chan rows.now.items → ⊥ }
    ensures { IsKeyOf chan rows.now result }
{
    key_of(rows, index, chan).unwrap()
}

// Takes out the row under this key, and its share of each part. The index may keep its key: it means nothing once the row is gone.
pub(crate) fn take_out(
    rows: &mut KeyedList<ServedRow>,
    sums: &mut LevelSums,
    keeping: &mut Keeping,
    bounds: &Bounds,
    key: usize,
)
    requires inside { position rows.old.keys key < length rows.old.items }
    requires distinct { IsDistinct (map summed rows.old.items) }
    requires parts { AreParts (whole_of keeping.old.budget) bounds.now rows.old.items sums.old keeping.old }
    ensures rows { rows.new ≡ record rows.old { items = remove rows.old.items (position rows.old.keys key); keys = remove rows.old.keys (position rows.old.keys key) } }
    ensures parts { AreParts (whole_of keeping.old.budget) bounds.now rows.new.items sums.new keeping.new }
    ensures server { sums.new.server ≡ sums.old.server }
{
    let row = &rows[key];
    keeping.give_back(row, bounds);
    sums.remove(row.chan.get());
    rows.remove(key);
}

// The units that a new reservation would keep.
pub(crate) fn need_of(bounds: &Bounds, contract: &Contract, up_reach: u64, reach: Level) -> u64
    requires before { up_reach ≤ most_bound }
    requires within { level_number reach ≤ length bounds.now }
    ensures { result ≡ need_of bounds.now contract.now up_reach (level_number reach) }
{
    units_for(contract, up_reach + u64::from(bounds.at(reach)))
}

// The reach for an offered level: the largest level whose bound is within the end-to-end bound or the offer's.
pub(crate) fn reach_of(bounds: &Bounds, delay: u64, offer: Level) -> Level
    requires { level_number offer ≤ length bounds.now }
    ensures value { level_number result ≡ reach_of bounds.now delay (level_number offer) }
    ensures within { level_number result ≤ length bounds.now }
{
    // `len` tells that the bounds rise, so that the first is within the offer's.
    let _levels = bounds.len();
    let most = delay.max(u64::from(bounds.at(offer)));
    bounds.within(most).unwrap()
}
