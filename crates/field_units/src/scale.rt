//! A tick and a unit, and what the numbers of the field come to at them.
ghost use Rattle.std.specs.Prelude.{◌≡◌, ◌≤◌, ◌↔◌, IsSome, IfSome, nat_eq, if◌then◌else◌};
ghost use Rattle.net_units.specs.Limits.{most_bound, most_buffer, most_delay, most_gap, most_propagation, most_rate, most_size};
ghost use Rattle.net_units.specs.Quotient.{ceil_quotient};
ghost use Rattle.field_units.specs.Rounding.{units_a_tick, bound_in, room_in, jitter_in, delay_in};
ghost use Rattle.field_units.specs.Scales.{Scales};

use crate::quantity::{Rate, Size, Time};
use net_units::limits::{
    MOST_BOUND, MOST_BUFFER, MOST_DELAY, MOST_GAP, MOST_PROPAGATION, MOST_RATE, MOST_SIZE,
};

/// The picoseconds of a second.
pub(crate) const SECOND: u128 = 1_000_000_000_000;

/// The largest unit, in bits: a mebibyte.
const MOST_UNIT: u64 = 8_388_608;

/// Why a number of the field has no number in a scenario at a scale, with what would do.
#[derive(Clone, Copy, Debug, PartialEq, Eq)]
pub enum Misfit {
    /// It needs a shorter tick; this one would do.
    ShorterTick(Time),
    /// It needs a longer tick; this one would do.
    LongerTick(Time),
    /// It needs a larger unit; this one would do.
    LargerUnit(Size),
    /// No tick and no unit would do.
    Never,
}

/// The tick in which a scenario counts time, and the unit in which it counts sizes.
#[derive(Clone, Copy, Debug, PartialEq, Eq)]
pub struct Scale {
    tick: u64,
    unit: u64,
    ghost time: { 1 ≤ tick },
    ghost size: { 1 ≤ unit },
    ghost small: { unit ≤ 8388608 },
}

impl Scale {
    /// The scale of this tick and unit, None exactly where the tick is 0, or the unit isn't from 1 to 8,388,608 bits.
    pub fn new(tick: Time, unit: Size) -> Option<Scale>
        ensures found { IsSome result ↔ ((1 ≤ tick.picoseconds) × (1 ≤ unit.bits) × (unit.bits ≤ 8388608)) }
        ensures value { IfSome result (λ scale. (scale.tick ≡ tick.picoseconds) × (scale.unit ≡ unit.bits)) }
    {
        if tick.picoseconds < 1 || unit.bits < 1 || unit.bits > MOST_UNIT {
            return None;
        }
        Some(Scale {
            tick: tick.picoseconds,
            unit: unit.bits,
        })
    }

    /// The tick.
    pub fn tick(&self) -> Time
        ensures { result.picoseconds ≡ self.now.tick }
    {
        Time {
            picoseconds: self.tick,
        }
    }

    /// The unit.
    pub fn unit(&self) -> Size
        ensures { result.bits ≡ self.now.unit }
    {
        Size { bits: self.unit }
    }

    /// The units that a link of this rate sends in a tick, rounded down and at most 65,536. An `Err` comes exactly where that is 0.
    pub fn rate(&self, rate: Rate) -> Result<u32, Misfit>
        ensures { Scales result (λ tick unit. units_a_tick tick unit rate.bits_a_second) 1 most_rate self.now.tick self.now.unit }
    {
        if rate.bits_a_second == 0 {
            return Err(Misfit::Never);
        }
        let bits = u128::from(rate.bits_a_second);
        let divisor = SECOND * u128::from(self.unit);
        let units = bits * u128::from(self.tick) / divisor;
        if units == 0 {
            return Err(Misfit::LongerTick(Time {
                picoseconds: divisor.div_ceil(bits) as u64,
            }));
        }
        Ok(units.min(u128::from(MOST_RATE)) as u32)
    }

    /// The ticks of a level's bound, rounded down and at most 1,048,576. An `Err` comes exactly where that is 0.
    pub fn bound(&self, time: Time) -> Result<u32, Misfit>
        ensures { Scales result (λ tick unit. bound_in tick time.picoseconds) 1 most_bound self.now.tick self.now.unit }
    {
        match time.picoseconds / self.tick {
            0 => Err(shorter(time.picoseconds)),
            ticks => Ok(ticks.min(u64::from(MOST_BOUND)) as u32),
        }
    }

    /// The ticks of a jitter that is wanted, rounded down and at most 67,108,864. An `Err` comes exactly where that is 0.
    pub fn jitter(&self, wanted: Time) -> Result<u64, Misfit>
        ensures { Scales result (λ tick unit. jitter_in tick wanted.picoseconds) 1 most_delay self.now.tick self.now.unit }
    {
        match wanted.picoseconds / self.tick {
            0 => Err(shorter(wanted.picoseconds)),
            ticks => Ok(ticks.min(MOST_DELAY)),
        }
    }

    /// The ticks of a delay that is wanted: rounded down, a tick less, since a packet may come at the beginning of its tick, and at
    /// most 67,108,864. An `Err` comes exactly where that is 0.
    pub fn delay(&self, wanted: Time) -> Result<u64, Misfit>
        ensures { Scales result (λ tick unit. delay_in tick wanted.picoseconds) 1 most_delay self.now.tick self.now.unit }
    {
        if wanted.picoseconds < 2 {
            return Err(Misfit::Never);
        }
        match wanted.picoseconds / self.tick {
            0 | 1 => Err(Misfit::ShorterTick(Time {
                picoseconds: wanted.picoseconds / 2,
            })),
            ticks => Ok((ticks - 1).min(MOST_DELAY)),
        }
    }

    /// The units of a buffer, rounded down and at most 262,144.
    pub fn room(&self, size: Size) -> u32
        ensures value { result ≡ room_in self.now.unit size.bits }
        ensures most { result ≤ most_buffer }
    {
        (size.bits / self.unit).min(u64::from(MOST_BUFFER)) as u32
    }

    /// The units of a packet, rounded up. An `Err` comes exactly where they aren't from 1 to 65,536.
    pub fn size(&self, size: Size) -> Result<u32, Misfit>
        ensures { Scales result (λ tick unit. ceil_quotient size.bits unit) 1 most_size self.now.tick self.now.unit }
    {
        if size.bits == 0 {
            return Err(Misfit::Never);
        }
        let units = size.bits.div_ceil(self.unit);
        if units > u64::from(MOST_SIZE) {
            return Err(Misfit::LargerUnit(Size {
                bits: size.bits.div_ceil(u64::from(MOST_SIZE)),
            }));
        }
        Ok(units as u32)
    }

    /// The ticks of a propagation, rounded up. An `Err` comes exactly where they are over 1,048,576.
    pub fn propagation(&self, time: Time) -> Result<u32, Misfit>
        ensures { Scales result (λ tick unit. ceil_quotient time.picoseconds tick) 0 most_propagation self.now.tick self.now.unit }
    {
        let ticks = time.picoseconds.div_ceil(self.tick);
        if ticks > u64::from(MOST_PROPAGATION) {
            return Err(Misfit::LongerTick(Time {
                picoseconds: time.picoseconds.div_ceil(u64::from(MOST_PROPAGATION)),
            }));
        }
        Ok(ticks as u32)
    }

    /// The ticks from one packet that is sent to the next, rounded up. An `Err` comes exactly where they aren't from 1 to 1,048,576.
    pub fn gap(&self, time: Time) -> Result<u32, Misfit>
        ensures { Scales result (λ tick unit. ceil_quotient time.picoseconds tick) 1 most_gap self.now.tick self.now.unit }
    {
        if time.picoseconds == 0 {
            return Err(Misfit::Never);
        }
        let gap = time.picoseconds.div_ceil(self.tick);
        if gap > u64::from(MOST_GAP) {
            return Err(Misfit::LongerTick(Time {
                picoseconds: time.picoseconds.div_ceil(u64::from(MOST_GAP)),
            }));
        }
        Ok(gap as u32)
    }
}

/// A tick as long as this time, which is shorter than a tick, would do; none would where it is 0.
pub(crate) fn shorter(time: u64) -> Misfit
    ensures { result ≡ (if nat_eq time 0 then Misfit.Never else Misfit.ShorterTick (record { picoseconds = time })) }
{
    if time == 0 {
        Misfit::Never
    } else {
        Misfit::ShorterTick(Time { picoseconds: time })
    }
}
