//! How long the row of a released channel stays held.
#![tactic(auto)]

ghost use Rattle.std.specs.Prelude.{◌≡◌, ◌+◌, ◌^◌, ◌<◌, ◌≤◌, ◌↔◌, ◌⊎◌, ℕ, List, IsTrue};
ghost use Rattle.release_hold.specs.Hold.{CountsTicks, is_over};

/// What is left to wait for at a link before a released channel's row expires.
///
/// The rule is this project's own. The channels that have an eligible packet in one busy period of the link
/// must stand in its admission sum together, so a released channel stays held until each of its packets has
/// had the link's largest delay bound.
#[derive(Clone, Copy, Debug, PartialEq, Eq)]
pub struct Draining {
    /// How many packets the channel brings to this link in all.
    pub last: u64,
    /// How many of them were given an eligible tick so far.
    pub eligible: u64,
    /// The last of these ticks. It counts for nothing where `eligible` is 0.
    pub last_tick: u64,
}

impl Draining {
    /// Whether the hold has ended at tick `now`, where `top` is the link's largest delay bound in ticks: the
    /// channel brings no packet, or all that it brings were given an eligible tick and the last one's bound
    /// has passed. The last eligible tick and `top` are below 2^63.
    pub fn due(&self, now: u64, top: u64) -> bool
        requires tick { self.now.last_tick < 2 ^ 63 }
        requires bound { top < 2 ^ 63 }

        ensures exact { IsTrue result ↔ ((self.now.last ≡ 0) ⊎ ((self.now.eligible ≡ self.now.last) × (self.now.last_tick + top ≤ now))) }

        // The same for the whole list of eligible ticks of which this has the count and the last.
        ensures over { (ticks : List ℕ) → CountsTicks self.now.eligible self.now.last_tick ticks → result ≡ is_over self.now.last ticks top now }
    {
        self.last == 0 || (self.eligible == self.last && self.last_tick + top <= now)
    }
}
