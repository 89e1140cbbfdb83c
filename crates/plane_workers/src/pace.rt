//! Which rounds several workers make.
ghost use Rattle.std.specs.Prelude.{◌≡◌, ◌+◌, ◌<◌, ◌≤◌, ◌^◌};

// For each worker a window has at least this many ticks. Starting one takes as long as some 600 ticks, and the window's asks and
// replies are kept until they are told.
const TICKS_EACH: u64 = 10_000;

// A window has at least this many workers: what a second one brings is spent on what one thread does before and after a window.
const LEAST_WORKERS: u64 = 3;

// A window has at most this many times as many rounds as were busy before it.
const BUSY_AHEAD: u64 = 32;

// A round at rest takes back so many busy ones.
const BUSY_LOST: u64 = 1;

// The next rounds of the plane: until which one begins, and by how many workers. One worker makes them as `play` does, and more make a
// window of them.
#[derive(Clone, Copy)]
pub(crate) struct Part {
    pub(crate) until: u64,
    pub(crate) workers: usize,
}

// How the plane's rounds went so far, and what follows from it for the next ones.
//
// A window makes the ticks of rounds at rest one by one, where one thread makes a stride. So windows are made where the rounds before
// them were busy, and are long enough. The first round of a run is a window, so that two links tick beside each other however short
// the run is.
#[derive(Drop)]
pub(crate) struct Pace {
    links: u64,
    gap: u64,
    workers: u64,
    // How many rounds were busy, less those at rest.
    busy: u64,
    begun: bool,
}

impl Pace {
    // Before the first round of this many links, where a window has at most one round more than `gap`.
    pub(crate) fn new(links: usize, gap: u64, workers: usize) -> Pace
        ensures { result.gap ≡ gap }
    {
        Pace {
            links: links as u64,
            gap,
            workers: workers as u64,
            busy: 0,
            begun: false,
        }
    }

    // The part that begins with this round, of a run with this many rounds and so many packets on their way.
    pub(crate) fn next(&self, round: u64, rounds: u64, flights: usize) -> Part
        requires left { round < rounds }
        requires gap { self.now.gap < 2 ^ 60 }
        ensures early { round < result.until }
        ensures all { result.until ≤ rounds }
        ensures near { 1 < result.workers → result.until ≤ round + self.now.gap + 1 }
    {
        let left = rounds - round;
        if !self.begun {
            return Part {
                until: round + 1,
                workers: self.workers.min(self.links).min(2) as usize,
            };
        }
        let long = left
            .min(self.gap + 1)
            .min(self.busy.saturating_mul(BUSY_AHEAD));
        let workers = self.worth(long, flights);
        if long > 0 && workers > 1 {
            return Part {
                until: round + long,
                workers,
            };
        }
        Part {
            until: round + left.min(self.alone()),
            workers: 1,
        }
    }

    // So many rounds were made, and so many of them were busy.
    pub(crate) fn note(&mut self, rounds: u64, busy: u64)
        ensures { self.new.gap ≡ self.old.gap }
    {
        self.begun = true;
        let lost = rounds.saturating_sub(busy).saturating_mul(BUSY_LOST);
        self.busy = self.busy.saturating_add(busy).saturating_sub(lost);
    }

    // How many workers are worth starting for a window of so many rounds: none for one that has fewer ticks than packets are on their
    // way, since all of these are looked through for it.
    fn worth(&self, rounds: u64, flights: usize) -> usize {
        let ticks = rounds.saturating_mul(self.links);
        let workers = (ticks / TICKS_EACH).min(self.workers).min(self.links);
        if ticks < flights as u64 || workers < LEAST_WORKERS {
            return 1;
        }
        workers as usize
    }

    // For how many rounds one worker goes on: as many as the shortest window that is worth it has, or all where there is none.
    fn alone(&self) -> u64
        ensures { 1 ≤ result }
    {
        let least = (LEAST_WORKERS * TICKS_EACH).div_ceil(self.links.max(1));
        let longest = self.gap.saturating_add(1);
        if self.workers < LEAST_WORKERS || self.links < LEAST_WORKERS || least > longest {
            return u64::MAX;
        }
        least.max(1)
    }
}
