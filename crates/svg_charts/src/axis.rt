//! An axis with round marks: even from 0 on, or logarithmic where the values are far apart.
use std::alloc::{AllocError, Global};

// Into how many steps an even axis is divided at most.
const PARTS: u64 = 5;

// From which quotient of the largest and the least value on an axis is logarithmic, and from which it has powers of ten alone.
const FAR: u64 = 30;

const VERY_FAR: u64 = 100;

/// An axis.
#[derive(Clone, Copy, Debug, PartialEq, Eq)]
pub struct Axis {
    /// Where it begins: 0 where it is even.
    pub low: u64,
    /// Where it ends.
    pub high: u64,
    /// The step from mark to mark of an even axis, 1, 2 or 5 times a power of ten, or 0 where it is logarithmic.
    pub step: u64,
}

impl Axis {
    /// The shortest axis with round ends on which values from the least to the most have their places.
    pub fn between(least: u64, most: u64) -> Axis {
        if least == 0 || most / least < FAR {
            return even(most);
        }
        let by_tens = most / least > VERY_FAR;
        Axis {
            low: round_below(least, by_tens),
            high: round_above(most, by_tens),
            step: 0,
        }
    }

    /// Whether it is logarithmic.
    pub fn is_logarithmic(&self) -> bool {
        self.step == 0
    }

    /// Where a value stands on it, in tenths of a percent: 0 for one before it, and 1,000 for one behind it.
    pub fn place(&self, value: u64) -> u64 {
        if self.is_logarithmic() {
            let low = logarithm(self.low);
            let whole = logarithm(self.high).saturating_sub(low);
            part(logarithm(value).saturating_sub(low), whole)
        } else {
            part(value, self.high)
        }
    }

    /// Its marks, from its beginning to its end.
    pub fn marks(&self, alloc: Global) -> Result<Vec<u64>, AllocError> {
        let by_tens = self.low == 0 || self.high / self.low.max(1) > VERY_FAR;
        let mut marks = Vec::new(alloc);
        let mut mark = self.low;
        for _ in 0..60u8 {
            marks.push(mark)?;
            if mark >= self.high {
                break;
            }
            mark = if self.is_logarithmic() {
                round_above(mark.saturating_add(1), by_tens)
            } else {
                mark.saturating_add(self.step)
            };
        }
        Ok(marks)
    }
}

// The part of a whole, in thousandths, and no more than 1,000.
fn part(value: u64, whole: u64) -> u64 {
    let thousandths = u128::from(value).saturating_mul(1000);
    let quotient = thousandths.checked_div(u128::from(whole));
    u64::try_from(quotient.unwrap_or(1000).min(1000)).unwrap_or(1000)
}

// The even axis that reaches so far.
fn even(most: u64) -> Axis {
    let most = most.max(1);
    let step = round_above(most.div_ceil(PARTS), false);
    let parts = most.div_ceil(step.max(1));
    Axis {
        low: 0,
        high: step.saturating_mul(parts),
        step,
    }
}

// The logarithm of a number to the base of 2, in 4,096ths; between powers of 2 it grows evenly.
fn logarithm(value: u64) -> u64 {
    let value = value.max(1);
    let mut doublings: u64 = 0;
    let mut power: u64 = 1;
    for _ in 0..63u8 {
        if power > value / 2 {
            break;
        }
        power = power.saturating_mul(2);
        doublings = doublings.saturating_add(1);
    }
    let rest = u128::from(value.saturating_sub(power)).saturating_mul(4096);
    let fraction = rest.checked_div(u128::from(power)).unwrap_or(0);
    let fraction = u64::try_from(fraction.min(4096)).unwrap_or(4096);
    doublings.saturating_mul(4096).saturating_add(fraction)
}

/// The least of 1, 2, 5, 10, 20, 50 .. that is no less than a number, or of 1, 10, 100 .. alone; the largest of them below 2^63 where
/// none is.
pub fn round_above(number: u64, by_tens: bool) -> u64 {
    let mut power: u64 = 1;
    for _ in 0..18u8 {
        if power >= number {
            return power;
        }
        if !by_tens && power.saturating_mul(2) >= number {
            return power.saturating_mul(2);
        }
        if !by_tens && power.saturating_mul(5) >= number {
            return power.saturating_mul(5);
        }
        power = power.saturating_mul(10);
    }
    power
}

/// The largest of 1, 2, 5, 10, 20, 50 .. that is no more than a number, or of 1, 10, 100 .. alone; 1 where none is.
pub fn round_below(number: u64, by_tens: bool) -> u64 {
    let above = round_above(number, by_tens);
    if above <= number {
        return above;
    }
    let tens = round_above(number, true) / 10;
    if by_tens || tens.saturating_mul(2) > number {
        tens.max(1)
    } else if tens.saturating_mul(5) > number {
        tens.saturating_mul(2)
    } else {
        tens.saturating_mul(5)
    }
}
