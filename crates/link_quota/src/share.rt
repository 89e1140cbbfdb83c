//! What a group holds on a link. These are running numbers, so that no row is looked at to tell them.
ghost use Rattle.std.specs.Prelude.{◌≡◌, ℕ, ◌+◌, ◌^◌, ◌<◌, ◌≤◌, length, slice_index, replicate};
ghost use Rattle.link_quota.specs.Shares.{row_work, IsRaised};

use link_server::HeldRow;
use link_steps::LinkShape;
use net_units::limits::MOST_LEVELS;
use rcsp_admission::loads::{add_row, take_row};

// What the rows of a group hold together.
#[derive(Clone, Copy)]
pub(crate) struct Share {
    // Of each level, the load of the rows at levels up to it, in ticks.
    pub(crate) loads: [u64; MOST_LEVELS as usize],
    // Of the buffer.
    pub(crate) units: u64,
}

impl Share {
    // That of no rows.
    pub(crate) fn none() -> Share
        ensures loads { result.loads ≡ replicate 8 0 }
        ensures units { result.units ≡ 0 }
    {
        Share {
            loads: [0; MOST_LEVELS as usize],
            units: 0,
        }
    }

    // A row of the group holds its part.
    pub(crate) fn hold(&mut self, shape: &LinkShape, row: &HeldRow)
        requires few { (i : ℕ) → i < length shape.now.bounds → slice_index self.old.loads i < 2 ^ 62 }
        requires units { self.old.units + row.now.kept < 2 ^ 62 }
        ensures { IsRaised shape.now.rate shape.now.bounds row.now self.old self.new }
    {
        add_row(
            &mut self.loads,
            &shape.bounds,
            shape.rate,
            &row.contract,
            row.level,
        );
        self.units += row.kept;
    }

    // It gives its part back.
    pub(crate) fn give_back(&mut self, shape: &LinkShape, row: &HeldRow)
        requires loads { (i : ℕ) → i < length shape.now.bounds → row_work shape.now.rate shape.now.bounds (i + 1) row.now ≤ slice_index self.old.loads i }
        requires units { row.now.kept ≤ self.old.units }
        ensures { IsRaised shape.now.rate shape.now.bounds row.now self.new self.old }
    {
        take_row(
            &mut self.loads,
            &shape.bounds,
            shape.rate,
            &row.contract,
            row.level,
        );
        self.units -= row.kept;
    }
}
