//! The delay bounds of a link's levels.
ghost use Rattle.std.specs.Prelude.{◌≡◌, ◌↔◌, ◌<◌, ◌≤◌, ℕ, IsTrue, IsSome, IsNone, IfSome, length, nat_le};
ghost use Rattle.std.specs.List.{list_all};
ghost use Rattle.net_units.specs.Padded.{padded};
ghost use Rattle.net_units.specs.LevelBounds.{rises_above, are_bounds, bound_at, last_bound, levels_within};
ghost use Rattle.net_units.specs.Limits.{most_bound};

use crate::limits::{MOST_BOUND, MOST_LEVELS};
use crate::numbers::Level;
use std::marker::Model;

/// The delay bounds of a link's levels, in ticks: 1 to 8 numbers from 1 to 1,048,576 that rise strictly.
///
/// A contract sees the list of the bounds, level 1 first.
#[derive(Clone, Copy)]
pub struct Bounds {
    bounds: [u32; MOST_LEVELS as usize],
    len: u8,
}

impl Model for Bounds {
    ghost use Rattle.std.specs.Prelude.{ℕ, List, IsTrue, length, take};
    ghost use Rattle.net_units.specs.Padded.{padded, IsPadded};
    ghost use Rattle.net_units.specs.LevelBounds.{are_bounds};

    ghost Value = { List ℕ };

    ghost view = { λ b. take b.len b.bounds };

    ghost invariant = { λ b. IsTrue (are_bounds (take b.len b.bounds)) × IsPadded 8 b.len b.bounds };

    ghost inverse = { λ bs. record { bounds = padded 8 bs; len = length bs } };

    ghost inverse_ok = { λ b h i. record { bounds = h.1.whole i; len = h.1.count i } };
}

impl Bounds {
    ghost use Rattle.net_units.specs.Numbers.{level_number};

    /// These bounds, None exactly where they aren't 1 to 8 that rise strictly, each from 1 to 1,048,576.
    pub fn new(bounds: &[u32]) -> Option<Bounds>
        ensures found { IsSome result ↔ IsTrue (are_bounds bounds.now) }
        ensures value { IfSome result (λ made. made ≡ bounds.now) }
    {
        if fits_levels(bounds) {
            Some(Bounds {
                bounds: with_zeros(bounds),
                len: bounds.len() as u8,
            })
        } else {
            None
        }
    }

    // The bounds, level 1 first.
    fn as_slice(&self) -> &[u32]
        ensures value { result.now ≡ self.now }
        ensures valid { IsTrue (are_bounds result.now) }
    {
        &self.bounds[..self.len as usize]
    }

    /// How many levels there are, from 1 to 8.
    pub fn len(&self) -> u8
        ensures value { result ≡ length self.now }
        ensures valid { IsTrue (are_bounds self.now) }
    {
        self.as_slice().len() as u8
    }

    /// The bound of one of these levels, from 1 to 1,048,576 ticks.
    pub fn at(&self, level: Level) -> u32
        requires { level_number level ≤ length self.now }
        ensures value { result ≡ bound_at self.now (level_number level) }
        ensures least { 1 ≤ result }
        ensures most { result ≤ most_bound }
        ensures valid { IsTrue (are_bounds self.now) }
    {
        self.as_slice()[level.get() as usize - 1]
    }

    /// The largest bound, that of the last level, from 1 to 1,048,576 ticks.
    pub fn last(&self) -> u32
        ensures value { result ≡ last_bound self.now }
        ensures least { 1 ≤ result }
        ensures most { result ≤ most_bound }
    {
        let bounds = self.as_slice();
        bounds[bounds.len() - 1]
    }

    /// The largest level whose bound is at most `x` ticks, None exactly where the first bound is over `x`.
    pub fn within(&self, x: u64) -> Option<Level>
        ensures none { IsNone result ↔ (x < bound_at self.now 1) }
        ensures value { IfSome result (λ level. level_number level ≡ levels_within self.now x) }
        ensures fits { IfSome result (λ level. (level_number level ≤ length self.now) × (bound_at self.now (level_number level) ≤ x)) }
        ensures largest { IfSome result (λ level. (other : ℕ) → level_number level < other → other ≤ length self.now → x < bound_at self.now other) }
    {
        match count_within(self.as_slice(), x) {
            0 => None,
            count => Some(Level::known(count)),
        }
    }
}

// The bounds, and zeros after them.
fn with_zeros(bounds: &[u32]) -> [u32; MOST_LEVELS as usize]
    requires { length bounds.now ≤ 8 }
    ensures { result ≡ padded 8 bounds.now }
{
    let mut cells = [0; MOST_LEVELS as usize];
    cells[..bounds.len()].copy_from_slice(bounds);
    cells
}

// How many levels, from the first on, have a bound of at most `x` ticks.
fn count_within(bounds: &[u32], x: u64) -> u8
    requires { length bounds.now ≤ 8 }
    ensures { result ≡ levels_within bounds.now x }
{
    let mut count = 0;
    for bound in bounds {
        if u64::from(*bound) > x {
            return count;
        }
        count += 1;
    }
    count
}

// Whether these are the bounds of a link's levels.
fn fits_levels(bounds: &[u32]) -> bool
    ensures { result ≡ are_bounds bounds.now }
{
    !bounds.is_empty()
        && bounds.len() <= MOST_LEVELS as usize
        && is_rising(bounds)
        && are_small(bounds)
}

// Whether each is above the one before it, and the first above 0.
fn is_rising(bounds: &[u32]) -> bool
    ensures { result ≡ rises_above 0 bounds.now }
{
    let mut low = 0;
    for bound in bounds {
        if *bound <= low {
            return false;
        }
        low = *bound;
    }
    true
}

// Whether none is over the limit.
fn are_small(bounds: &[u32]) -> bool
    ensures { result ≡ list_all (λ b. nat_le b most_bound) bounds.now }
{
    bounds.iter().all(|bound| *bound <= MOST_BOUND)
}
