//! The levels that a route's hops are allotted.
ghost use Rattle.std.specs.Prelude.{◌≡◌, ◌-◌, ◌<◌, ◌≤◌, [], ◌∷◌, ◌++◌, length, slice_index};

use crate::limits::MOST_HOPS;
use crate::numbers::Level;

/// A list of up to 16 levels, one a hop, in route order.
///
/// A contract sees the list of their numbers by `levels_of`.
#[derive(Clone, Copy, Debug)]
pub struct Levels {
    levels: [Level; MOST_HOPS as usize],
    len: u8,
    ghost fits: { len ≤ 16 },
}

impl Levels {
    ghost use Rattle.net_units.specs.Numbers.{level_number};
    ghost use Rattle.net_units.specs.Allotted.{levels_of};

    /// No levels yet.
    pub fn new() -> Levels
        ensures { levels_of result ≡ [] }
    {
        Levels {
            levels: [Level::LEAST; MOST_HOPS as usize],
            len: 0,
        }
    }

    /// Adds a level at the end. There were fewer than 16.
    pub fn push(&mut self, level: Level)
        requires { length (levels_of self.old) < 16 }
        ensures { levels_of self.new ≡ levels_of self.old ++ level_number level ∷ [] }
    {
        self.levels[self.len as usize] = level;
        self.len += 1;
    }

    /// How many levels there are, up to 16.
    pub fn len(&self) -> u8
        ensures value { result ≡ length (levels_of self.now) }
        ensures most { result ≤ 16 }
    {
        self.len
    }

    /// The level at a place, from 1 to `len`.
    pub fn at(&self, place: u8) -> Level
        requires first { 1 ≤ place }
        requires last { place ≤ length (levels_of self.now) }
        ensures { level_number result ≡ slice_index (levels_of self.now) (place - 1) }
    {
        self.levels[place as usize - 1]
    }

    /// Takes all levels out.
    pub fn clear(&mut self)
        ensures { levels_of self.new ≡ [] }
    {
        self.len = 0;
    }
}
