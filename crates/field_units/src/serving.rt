//! A tick and a unit that serve a network: what they lose of its numbers, and which are tried.
ghost use Rattle.std.specs.Prelude.{◌≡◌, ◌≤◌, ◌*◌, ◌-◌, ◌++◌, map, nat_le, ◌&&◌, true, IfOk, OnOk};
ghost use Rattle.std.specs.List.{list_all};
ghost use Rattle.field_units.specs.Serving.{is_near as near, keeps_ticks as keeps, keeps_rate as keeps_a_rate, keeps_size as keeps_a_size, keeps_room as keeps_a_room, keeps_bound as keeps_a_bound, keeps_jitter as keeps_a_jitter, keeps_delay as keeps_a_delay, keeps_gap as keeps_a_gap, keeps_window as keeps_a_window, fits_run as fits, pair_of, pairs_at, is_unit, tried_pairs};

use crate::quantity::{Rate, Size, Time};
use crate::scale::{SECOND, Scale};
use crate::stream::{Stream, left_by};
use net_units::limits::{
    MOST_BOUND, MOST_DELAY, MOST_GAP, MOST_INTERVAL, MOST_RATE, MOST_ROUNDS, MOST_SIZE,
};
use std::alloc::{AllocError, Global};

/// The ticks that are tried, in picoseconds: 1, 2 and 5 with zeros, from 10 ms down to 1 ns.
const TICKS: [u64; 22] = [
    10_000_000_000,
    5_000_000_000,
    2_000_000_000,
    1_000_000_000,
    500_000_000,
    200_000_000,
    100_000_000,
    50_000_000,
    20_000_000,
    10_000_000,
    5_000_000,
    2_000_000,
    1_000_000,
    500_000,
    200_000,
    100_000,
    50_000,
    20_000,
    10_000,
    5_000,
    2_000,
    1_000,
];

/// The units that are tried, in bits: 64 bytes and each half of it, down to a byte, and a bit.
const UNITS: [u64; 8] = [512, 256, 128, 64, 32, 16, 8, 1];

impl Scale {
    /// Whether a rate has units in a tick, and loses at most one part in `parts` by them.
    #[tactic(auto, unfolding(crate::specs::Serving::keeps_rate, crate::specs::Rounding::units_a_tick))]
    pub fn keeps_rate(&self, rate: Rate, parts: u64) -> bool
        ensures { result ≡ keeps_a_rate self.now.tick self.now.unit parts rate.bits_a_second }
    {
        let whole = u128::from(rate.bits_a_second) * u128::from(self.tick().picoseconds);
        let unit = SECOND * u128::from(self.unit().bits);
        let units = (whole / unit).min(u128::from(MOST_RATE));
        units >= 1 && is_near(parts, whole, whole.saturating_sub(units * unit))
    }

    /// Whether a size has its units, and gains at most one part in `parts` by them.
    #[tactic(auto, unfolding(crate::specs::Serving::keeps_size))]
    pub fn keeps_size(&self, size: Size, parts: u64) -> bool
        ensures { result ≡ keeps_a_size self.now.unit parts size.bits }
    {
        let unit = self.unit().bits;
        let units = size.bits.div_ceil(unit);
        if units < 1 || units > u64::from(MOST_SIZE) {
            return false;
        }
        let whole = u128::from(size.bits);
        let gained = (u128::from(units) * u128::from(unit)).saturating_sub(whole);
        is_near(parts, whole, gained)
    }

    /// Whether a buffer loses at most one part in `parts`.
    #[tactic(auto, unfolding(crate::specs::Serving::keeps_room))]
    pub fn keeps_room(&self, size: Size, parts: u64) -> bool
        ensures { result ≡ keeps_a_room self.now.unit parts size.bits }
    {
        let whole = u128::from(size.bits);
        let kept = u128::from(self.room(size)) * u128::from(self.unit().bits);
        is_near(parts, whole, whole.saturating_sub(kept))
    }

    /// Whether a level's bound has ticks, and loses at most one part in `parts` by them.
    #[tactic(auto, unfolding(crate::specs::Serving::keeps_bound))]
    pub fn keeps_bound(&self, time: Time, parts: u64) -> bool
        ensures { result ≡ keeps_a_bound self.now.tick parts time.picoseconds }
    {
        let ticks = time.picoseconds / self.tick().picoseconds;
        self.keeps_ticks(parts, time.picoseconds, ticks.min(u64::from(MOST_BOUND)))
    }

    /// Whether a jitter that is wanted has ticks, and loses at most one part in `parts` by them.
    #[tactic(auto, unfolding(crate::specs::Serving::keeps_jitter))]
    pub fn keeps_jitter(&self, wanted: Time, parts: u64) -> bool
        ensures { result ≡ keeps_a_jitter self.now.tick parts wanted.picoseconds }
    {
        let ticks = wanted.picoseconds / self.tick().picoseconds;
        self.keeps_ticks(parts, wanted.picoseconds, ticks.min(MOST_DELAY))
    }

    /// Whether a delay that is wanted has ticks, and loses at most one part in `parts` by them.
    #[tactic(auto, unfolding(crate::specs::Serving::keeps_delay))]
    pub fn keeps_delay(&self, wanted: Time, parts: u64) -> bool
        ensures { result ≡ keeps_a_delay self.now.tick parts wanted.picoseconds }
    {
        let ticks = (wanted.picoseconds / self.tick().picoseconds).saturating_sub(1);
        self.keeps_ticks(parts, wanted.picoseconds, ticks.min(MOST_DELAY))
    }

    /// Whether what the jitter leaves of a stream's gap has ticks, and loses at most one part in `parts` by them.
    #[tactic(auto, unfolding(crate::specs::Serving::keeps_gap, crate::specs::Rounding::gap_in))]
    pub fn keeps_gap(&self, stream: &Stream, parts: u64) -> bool
        ensures { result ≡ keeps_a_gap self.now.tick parts stream.now }
    {
        let time = left_by(stream.jitter, stream.apart);
        let ticks = time / self.tick().picoseconds;
        self.keeps_ticks(parts, time, ticks.min(u64::from(MOST_GAP)))
    }

    /// Whether what the jitter leaves of a stream's window has ticks for each packet, and loses at most one part in `parts` by them.
    #[tactic(auto, unfolding(crate::specs::Serving::keeps_window))]
    pub fn keeps_window(&self, stream: &Stream, parts: u64) -> bool
        ensures { result ≡ keeps_a_window self.now.tick parts stream.now }
    {
        if stream.packets < 1 {
            return false;
        }
        let ticks = u64::from(self.mean_gap(stream)) * u64::from(stream.packets);
        self.keeps_ticks(parts, left_by(stream.jitter, stream.window), ticks)
    }

    /// Whether the ticks of a run, rounded up, over so many links are within a scenario's limit.
    #[tactic(auto, unfolding(crate::specs::Serving::fits_run))]
    pub fn fits_run(&self, run: Time, links: u64) -> bool
        ensures { result ≡ fits self.now.tick run.picoseconds links }
    {
        let ticks = run.picoseconds.div_ceil(self.tick().picoseconds);
        u128::from(ticks) * u128::from(links) <= u128::from(MOST_ROUNDS)
    }

    // Whether there are ticks, and a time loses at most one part in `parts` by them.
    fn keeps_ticks(&self, parts: u64, time: u64, ticks: u64) -> bool
        ensures { result ≡ keeps self.now.tick parts time ticks }
    {
        let whole = u128::from(time);
        let kept = u128::from(ticks) * u128::from(self.tick().picoseconds);
        ticks >= 1 && is_near(parts, whole, whole.saturating_sub(kept))
    }
}

// Whether what is lost is at most one part in `parts` of the whole, and nothing where `parts` is 0.
fn is_near(parts: u64, whole: u128, lost: u128) -> bool
    ensures { result ≡ near parts whole lost }
{
    lost <= whole.checked_div(u128::from(parts)).unwrap_or(0)
}

/// The scales that are tried, the coarsest first: at each tick, the longest first, each unit, the largest first.
pub fn tried_scales(alloc: Global) -> Result<Vec<Scale>, AllocError>
    ensures { IfOk result (λ scales. map pair_of scales.items ≡ tried_pairs) }
{
    let mut scales = Vec::new(alloc);
    for tick in &TICKS {
        add_units(*tick, &UNITS, &mut scales)?;
    }
    Ok(scales)
}

// Adds the scales of this tick with each of these units.
fn add_units(tick: u64, units: &[u64], scales: &mut Vec<Scale>) -> Result<(), AllocError>
    requires tick { 1 ≤ tick }
    requires units { list_all is_unit units.now ≡ true }
    ensures { OnOk result (map pair_of scales.new.items ≡ map pair_of scales.old.items ++ pairs_at tick units.now) }
{
    for unit in units {
        scales.push(Scale::new(Time { picoseconds: tick }, Size { bits: *unit }).unwrap())?;
    }
    Ok(())
}
