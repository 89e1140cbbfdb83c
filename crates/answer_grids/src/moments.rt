//! Ticks as times.
ghost use Rattle.std.specs.Prelude.{◌≡◌, ◌+◌, ◌*◌, ◌<◌, ◌≤◌};

use field_units::Time;
use std::alloc::{AllocError, Global};

// The units in which times are shown, the largest first, in picoseconds.
const UNITS: [(&'static str, u64); 5] = [
    ("s", 1_000_000_000_000),
    ("ms", 1_000_000_000),
    ("us", 1_000_000),
    ("ns", 1_000),
    ("ps", 1),
];

/// So many ticks, and how long that is.
pub fn ticks_text(alloc: Global, ticks: u64, tick: Option<Time>) -> Result<String, AllocError> {
    let noun = if ticks == 1 { "tick" } else { "ticks" };
    match tick {
        None => format!(in alloc; "{ticks} {noun}"),
        Some(tick) => {
            let time = time_text(alloc, ticks, tick)?;
            let time = time.as_str();
            format!(in alloc; "{ticks} {noun} ({time})")
        }
    }
}

/// So many ticks as a time, exactly: in the largest unit of which it is one at least, with as many decimals as it takes.
pub fn time_text(alloc: Global, ticks: u64, tick: Time) -> Result<String, AllocError> {
    let parts = time_parts(ticks, tick);
    let (whole, name) = (parts.whole, parts.name);
    let mut text = format!(in alloc; "{whole}")?;
    push_decimals(&mut text, parts.rest, parts.size)?;
    text.push(' ')?;
    text.push_str(name)?;
    Ok(text)
}

/// A time in a unit: so many whole ones, and what is left, in picoseconds.
#[derive(Clone, Copy)]
pub struct TimeParts {
    /// How many whole units.
    pub whole: u128,
    /// The picoseconds that are left.
    pub rest: u128,
    /// The picoseconds of the unit.
    pub size: u128,
    /// The name of the unit.
    pub name: &'static str,
}

/// So many ticks in the largest unit of which they are one at least; no time at all is one of no seconds.
pub fn time_parts(ticks: u64, tick: Time) -> TimeParts
    ensures exact { result.whole * result.size + result.rest ≡ ticks * tick.picoseconds }
    ensures less { result.rest < result.size }
{
    let total = u128::from(ticks) * u128::from(tick.picoseconds);
    let (name, size) = unit_of(total);
    TimeParts {
        whole: total / size,
        rest: total % size,
        size,
        name,
    }
}

// The largest unit of which this is one at least, or the second.
fn unit_of(total: u128) -> (&'static str, u128)
    ensures { 1 ≤ result.1 }
{
    for (name, size) in &UNITS {
        let size = u128::from(*size);
        if size > 0 && total >= size {
            return (*name, size);
        }
    }
    ("s", 1_000_000_000_000)
}

// The decimals of what is left.
fn push_decimals(text: &mut String, rest: u128, size: u128) -> Result<(), AllocError> {
    let mut rest = rest;
    for place in 0..12u8 {
        if rest == 0 {
            return Ok(());
        }
        if place == 0 {
            text.push('.')?;
        }
        let tens = rest.saturating_mul(10);
        text.push(digit_of(tens.checked_div(size).unwrap_or(0)))?;
        rest = tens.checked_rem(size).unwrap_or(0);
    }
    Ok(())
}

// The digit of a number below ten.
fn digit_of(number: u128) -> char {
    match number {
        0 => '0',
        1 => '1',
        2 => '2',
        3 => '3',
        4 => '4',
        5 => '5',
        6 => '6',
        7 => '7',
        8 => '8',
        _ => '9',
    }
}
