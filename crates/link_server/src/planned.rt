//! The packets that are planned and left: those of a row's source, or best-effort packets.
ghost use Rattle.std.specs.Prelude.{◌≡◌, ◌+◌, ◌*◌, ◌^◌, ◌<◌, ◌≤◌, false, None, find, IfSome};

// The first at `tick`, and then one every `gap` ticks, `count` in all, each of `size` units.
#[derive(Clone, Copy)]
pub(crate) struct Planned {
    pub(crate) tick: u64,
    pub(crate) gap: u64,
    pub(crate) size: u32,
    pub(crate) count: u64,
    ghost apart: { 1 ≤ gap },
    ghost has_size: { 1 ≤ size },
    ghost ends: { tick + gap * count < 2 ^ 62 },
}

impl Planned {
    ghost use Rattle.link_steps.specs.Lists.{Each};
    ghost use Rattle.link_steps.specs.Rows.{is_for, left_at};
    ghost use Rattle.link_server.specs.Planned.{left_in, first_tick, size_of, IsPlannedAhead, IsPlannedFrom};

    // None are planned.
    pub(crate) const NONE: Planned = Planned {
        tick: 0,
        gap: 1,
        size: 1,
        count: 0,
    };

    // The tick of the next one, if any is left.
    pub(crate) fn next(&self) -> Option<u64>
        ensures { result ≡ first_tick (left_in self.now) }
    {
        if self.count == 0 {
            return None;
        }
        Some(self.tick)
    }

    // A tick before which none is planned.
    pub(crate) fn rests_until(&self) -> u64
        ensures { Each (IsPlannedFrom result) (left_in self.now) }
    {
        if self.count == 0 {
            return u64::MAX;
        }
        self.tick
    }

    // Whether one is planned for this tick.
    pub(crate) fn is_for(&self, clock: u64) -> bool
        requires ahead { IsPlannedAhead clock self.now }
        ensures { result ≡ false → find (is_for clock) (left_in self.now) ≡ None }
    {
        self.count > 0 && self.tick == clock
    }

    // The size of the packet that is planned for this tick, if there is one. Then it is no longer left.
    pub(crate) fn take_at(&mut self, clock: u64) -> Option<u32>
        requires ahead { IsPlannedAhead clock self.old }
        ensures size { result ≡ size_of (find (is_for clock) (left_in self.old)) }
        ensures least { IfSome result (λ size. 1 ≤ size) }
        ensures left { left_in self.new ≡ left_at (clock + 1) (left_in self.old) }
    {
        if self.count == 0 || self.tick != clock {
            return None;
        }
        let size = self.size;
        *self = Planned {
            tick: self.tick + self.gap,
            gap: self.gap,
            size,
            count: self.count - 1,
        };
        Some(size)
    }
}
