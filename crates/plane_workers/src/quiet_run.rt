//! Quiet ticks of a link, one after the other.
ghost use Rattle.std.specs.Prelude.{◌≡◌, ◌+◌, ◌-◌, ◌^◌, ◌<◌, ◌≤◌};

// A number of quiet ticks, at least one, the first of them at this clock.
#[derive(Clone, Copy)]
pub(crate) struct QuietRun {
    pub(crate) clock: u64,
    pub(crate) ticks: u64,
    ghost some: { 1 ≤ ticks },
    ghost early: { clock + ticks ≤ 2 ^ 61 },
}

impl QuietRun {
    // So many, from this clock on.
    pub(crate) fn new(clock: u64, ticks: u64) -> QuietRun
        requires some { 1 ≤ ticks }
        requires early { clock + ticks ≤ 2 ^ 61 }
        ensures clock { result.clock ≡ clock }
        ensures ticks { result.ticks ≡ ticks }
    {
        QuietRun { clock, ticks }
    }

    // Those that are left after so many of them, where some are.
    pub(crate) fn after(&self, ticks: u64) -> QuietRun
        requires { ticks < self.now.ticks }
        ensures clock { result.clock ≡ self.now.clock + ticks }
        ensures ticks { result.ticks ≡ self.now.ticks - ticks }
    {
        QuietRun {
            clock: self.clock + ticks,
            ticks: self.ticks - ticks,
        }
    }
}
