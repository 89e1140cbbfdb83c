//! Quantities in few digits, for where the exact number has too many.

use crate::quantity::{Rate, Size, Time};
use crate::text::{RATE_UNITS, SIZE_UNITS, TIME_UNITS, Unit, whole_in};
use std::fmt::{self, Display};

/// A number of more digits than these is rounded.
const MOST_WHOLE: u64 = 9_999;

/// The units of a rounded time.
const TIME_STEPS: [Unit; 8] = [
    ("ps", 1),
    ("ns", 1_000),
    ("us", 1_000_000),
    ("ms", 1_000_000_000),
    ("s", 1_000_000_000_000),
    ("min", 60_000_000_000_000),
    ("h", 3_600_000_000_000_000),
    ("d", 86_400_000_000_000_000),
];

/// The units of a rounded size.
const SIZE_STEPS: [Unit; 5] = [
    ("bit", 1),
    ("B", 8),
    ("kB", 8_000),
    ("MB", 8_000_000),
    ("GB", 8_000_000_000),
];

/// The units of a rounded rate.
const RATE_STEPS: [Unit; 5] = [
    ("bit/s", 1),
    ("kbit/s", 1_000),
    ("Mbit/s", 1_000_000),
    ("Gbit/s", 1_000_000_000),
    ("Tbit/s", 1_000_000_000_000),
];

/// A quantity that is printed in at most four digits: exactly where the exact number has no more, and else rounded to three, behind a
/// `~` where it isn't exact, as in `~1.53 ms`.
#[derive(Clone, Copy, Debug)]
pub struct Rounded {
    quantity: u64,
    units: &'static [Unit],
    steps: &'static [Unit],
}

impl Time {
    /// The time in few digits.
    pub fn rounded(&self) -> Rounded {
        Rounded {
            quantity: self.picoseconds,
            units: &TIME_UNITS,
            steps: &TIME_STEPS,
        }
    }
}

impl Size {
    /// The size in few digits.
    pub fn rounded(&self) -> Rounded {
        Rounded {
            quantity: self.bits,
            units: &SIZE_UNITS,
            steps: &SIZE_STEPS,
        }
    }
}

impl Rate {
    /// The rate in few digits.
    pub fn rounded(&self) -> Rounded {
        Rounded {
            quantity: self.bits_a_second,
            units: &RATE_UNITS,
            steps: &RATE_STEPS,
        }
    }
}

impl Display for Rounded {
    fn fmt<W: fmt::Write>(&self, f: &mut fmt::Formatter<W>) -> fmt::Result {
        let (number, name) = whole_in(self.quantity, self.units);
        if number <= MOST_WHOLE {
            return write!(f, "{number} {name}");
        }
        let exact = u128::from(self.quantity);
        let rounded = to_three_digits(exact, step_of(exact, self.steps).1);
        let sign = if rounded == exact { "" } else { "~" };
        let (name, scale) = step_of(rounded, self.steps);
        let hundredths = hundredths_in(rounded, scale);
        let whole = hundredths / 100;
        match (hundredths % 100 / 10, hundredths % 10) {
            (0, 0) => write!(f, "{sign}{whole} {name}"),
            (tenth, 0) => write!(f, "{sign}{whole}.{tenth} {name}"),
            (tenth, hundredth) => write!(f, "{sign}{whole}.{tenth}{hundredth} {name}"),
        }
    }
}

/// The last of these units that is at most this quantity, or the base unit.
fn step_of(quantity: u128, steps: &[Unit]) -> (&'static str, u64) {
    let mut step = ("", 1);
    for &(name, scale) in steps {
        if scale <= 1 || quantity >= u128::from(scale) {
            step = (name, scale);
        }
    }
    step
}

/// How many hundredths of a unit a quantity has.
fn hundredths_in(quantity: u128, scale: u64) -> u128 {
    quantity
        .saturating_mul(100)
        .checked_div(u128::from(scale))
        .unwrap_or(0)
}

/// The quantity to the nearest hundredth, tenth or whole of a unit, so that it has three digits there, or all before the point.
fn to_three_digits(quantity: u128, scale: u64) -> u128 {
    let scale = u128::from(scale);
    let parts = match quantity.checked_div(scale) {
        Some(0..=9) => 100,
        Some(10..=99) => 10,
        _ => 1,
    };
    let count = quantity
        .saturating_mul(parts)
        .saturating_add(scale / 2)
        .checked_div(scale)
        .unwrap_or(0);
    count.saturating_mul(scale) / parts
}
