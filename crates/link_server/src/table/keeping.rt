//! What the rows of a link keep together. These are running numbers, so that no row is looked at to tell them.
ghost use Rattle.std.specs.Prelude.{◌≡◌, ◌+◌, ◌-◌, ◌^◌, ◌<◌, ◌≤◌, length};
ghost use Rattle.buffer_budget.specs.Parts.{with_held, with_freed};
ghost use Rattle.link_steps.specs.Buffer.{held_units};
ghost use Rattle.link_server.specs.Rows.{reservation_in, IsWithinLevels};

use crate::table::served_row::ServedRow;
use buffer_budget::Budget;
use net_units::Bounds;

// What the rows keep: units of the buffer, and places for packets.
#[derive(Drop)]
pub(crate) struct Keeping {
    pub(crate) budget: Budget,
    // One for each slot, and one more a row.
    pub(crate) places: u64,
    ghost few: { places < 2 ^ 55 },
}

impl Keeping {
    ghost use Rattle.link_server.specs.Keeping.{places_for};

    // All units of the buffer are free.
    pub(crate) fn new(buffer: u32) -> Keeping
        ensures budget { result.budget ≡ record { free = buffer; held = 0 } }
        ensures places { result.places ≡ 0 }
    {
        Keeping {
            budget: Budget::new(u64::from(buffer)),
            places: 0,
        }
    }

    // A row holds what it keeps.
    pub(crate) fn hold(&mut self, row: &ServedRow, bounds: &Bounds)
        requires within { IsWithinLevels (length bounds.now) row.now }
        requires free { held_units bounds.now (reservation_in row.now) ≤ self.old.budget.free }
        requires few { self.old.places + places_for bounds.now (reservation_in row.now) < 2 ^ 55 }
        ensures budget { self.new.budget ≡ with_held self.old.budget (held_units bounds.now (reservation_in row.now)) }
        ensures places { self.new.places ≡ self.old.places + places_for bounds.now (reservation_in row.now) }
    {
        if self.budget.try_hold(row.units(bounds)).is_err() {
            unreachable!();
        }
        self.places += 1 + row.slots(bounds);
    }

    // A row gives back what it keeps.
    pub(crate) fn give_back(&mut self, row: &ServedRow, bounds: &Bounds)
        requires within { IsWithinLevels (length bounds.now) row.now }
        requires held { held_units bounds.now (reservation_in row.now) ≤ self.old.budget.held }
        requires places { places_for bounds.now (reservation_in row.now) ≤ self.old.places }
        ensures budget { self.new.budget ≡ with_freed self.old.budget (held_units bounds.now (reservation_in row.now)) }
        ensures places { self.new.places ≡ self.old.places - places_for bounds.now (reservation_in row.now) }
    {
        self.budget.give_back(row.units(bounds));
        self.places -= 1 + row.slots(bounds);
    }
}
