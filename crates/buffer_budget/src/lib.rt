//! A link's buffer, and how much of it the link's rows hold.
#![tactic(auto)]

ghost use Rattle.std.specs.Prelude.{◌≡◌, ◌-◌, ◌^◌, ◌<◌, ◌≤◌, ◌↔◌, IsOk, OnOk, OnErr, IfErr};
ghost use Rattle.buffer_budget.specs.Parts.{whole_of, with_held, with_freed};

use std::marker::Model;

/// The buffer of a link, in units: a part is held by the link's rows, and the rest is free.
///
/// A contract sees the two parts, as `free` and `held`. Together they are the whole buffer, which stays as it
/// was made.
#[derive(Debug, Drop)]
pub struct Budget {
    free: u64,
    held: u64,
}

impl Model for Budget {
    ghost use Rattle.std.specs.Prelude.{◌+◌, ◌^◌, ◌<◌};
    ghost use Rattle.buffer_budget.specs.Parts.{Parts};

    ghost Value = { Parts };

    ghost view = { λ b. record { free = b.free; held = b.held } };

    ghost invariant = { λ b. b.free + b.held < 2 ^ 64 };
}

/// More units were asked for than are free.
#[derive(Clone, Copy, Debug, PartialEq, Eq)]
pub struct NoRoom {
    /// The units that were asked for.
    pub need: u64,
    /// The units that are free.
    pub free: u64,
}

impl Budget {
    /// A buffer of `units` units, all free.
    pub fn new(units: u64) -> Budget
        ensures { result ≡ record { free = units; held = 0 } }
    {
        Budget {
            free: units,
            held: 0,
        }
    }

    /// The units that nobody holds.
    pub fn free(&self) -> u64
        ensures value { result ≡ self.now.free }
        ensures whole { whole_of self.now < 2 ^ 64 }
    {
        self.free
    }

    /// Holds `units` units. `NoRoom` comes exactly where more are asked for than are free, and changes nothing.
    pub fn try_hold(&mut self, units: u64) -> Result<(), NoRoom>
        ensures fits { IsOk result ↔ (units ≤ self.old.free) }
        ensures held { OnOk result (self.new ≡ with_held self.old units) }

        ensures over { OnErr result (self.old.free < units) }
        ensures no_room { IfErr result (λ refusal. (refusal.need ≡ units) × (refusal.free ≡ self.old.free)) }
        ensures unchanged { OnErr result (self.new ≡ self.old) }

        ensures whole { whole_of self.new ≡ whole_of self.old }
    {
        if units > self.free {
            return Err(NoRoom {
                need: units,
                free: self.free,
            });
        }
        self.free -= units;
        self.held += units;
        Ok(())
    }

    /// Makes a row that holds `from` units hold `to` of them, at most as many, and gives back the rest.
    pub fn cut(&mut self, from: u64, to: u64)
        requires smaller { to ≤ from }
        requires held { from ≤ self.old.held }
        ensures freed { self.new ≡ with_freed self.old (from - to) }
        ensures whole { whole_of self.new ≡ whole_of self.old }
    {
        self.give_back(from - to);
    }

    /// Gives back `units` units, at most as many as are held.
    pub fn give_back(&mut self, units: u64)
        requires { units ≤ self.old.held }
        ensures freed { self.new ≡ with_freed self.old units }
        ensures whole { whole_of self.new ≡ whole_of self.old }
    {
        self.held -= units;
        self.free += units;
    }
}
