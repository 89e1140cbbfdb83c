//! Quantities as engineers write them: a decimal number and a unit, such as `0.5 ms`, `1538 bytes` or `2.048 Mbit/s`.

use crate::quantity::{Rate, Size, Time};
use std::fmt::{self, Display};

/// Why a text is no quantity.
#[derive(Clone, Copy, Debug, PartialEq, Eq)]
pub enum BadQuantity {
    /// It doesn't begin with a number: digits, and where there is a point, digits on both sides of it.
    Number,
    /// Its unit isn't a known one.
    Unit,
    /// It isn't a whole number of picoseconds, bits, or bits a second.
    Inexact,
    /// It is over 2^64 - 1 picoseconds, bits, or bits a second.
    Large,
}

/// A unit: its name, and how many picoseconds, bits, or bits a second it is.
pub type Unit = (&'static str, u64);

/// The units of time. A time is printed in the last of them of which it is a whole number.
pub const TIME_UNITS: [Unit; 10] = [
    ("ps", 1),
    ("ns", 1_000),
    ("\u{b5}s", 1_000_000),
    ("\u{3bc}s", 1_000_000),
    ("us", 1_000_000),
    ("ms", 1_000_000_000),
    ("s", 1_000_000_000_000),
    ("min", 60_000_000_000_000),
    ("h", 3_600_000_000_000_000),
    ("d", 86_400_000_000_000_000),
];

/// The units of size, bytes last. A kB is 1,000 bytes, and a KiB 1,024.
pub const SIZE_UNITS: [Unit; 16] = [
    ("bits", 1),
    ("bit", 1),
    ("kbit", 1_000),
    ("Kibit", 1_024),
    ("Mbit", 1_000_000),
    ("Mibit", 1_048_576),
    ("Gbit", 1_000_000_000),
    ("byte", 8),
    ("bytes", 8),
    ("B", 8),
    ("kB", 8_000),
    ("KiB", 8_192),
    ("MB", 8_000_000),
    ("MiB", 8_388_608),
    ("GB", 8_000_000_000),
    ("GiB", 8_589_934_592),
];

/// The units of rate, bits last.
pub const RATE_UNITS: [Unit; 15] = [
    ("B/s", 8),
    ("kB/s", 8_000),
    ("MB/s", 8_000_000),
    ("GB/s", 8_000_000_000),
    ("bits/s", 1),
    ("bps", 1),
    ("bit/s", 1),
    ("kbps", 1_000),
    ("kbit/s", 1_000),
    ("Mbps", 1_000_000),
    ("Mbit/s", 1_000_000),
    ("Gbps", 1_000_000_000),
    ("Gbit/s", 1_000_000_000),
    ("Tbps", 1_000_000_000_000),
    ("Tbit/s", 1_000_000_000_000),
];

impl Time {
    /// The time that this text says.
    pub fn parse(text: &str) -> Result<Time, BadQuantity> {
        let picoseconds = parse(text.as_bytes(), &TIME_UNITS)?;
        Ok(Time { picoseconds })
    }
}

impl Size {
    /// The size that this text says.
    pub fn parse(text: &str) -> Result<Size, BadQuantity> {
        let bits = parse(text.as_bytes(), &SIZE_UNITS)?;
        Ok(Size { bits })
    }
}

impl Rate {
    /// The rate that this text says.
    pub fn parse(text: &str) -> Result<Rate, BadQuantity> {
        let bits_a_second = parse(text.as_bytes(), &RATE_UNITS)?;
        Ok(Rate { bits_a_second })
    }
}

/// The time in the last of its units of which it is a whole number.
impl Display for Time {
    fn fmt<W: fmt::Write>(&self, f: &mut fmt::Formatter<W>) -> fmt::Result {
        let (number, name) = whole_in(self.picoseconds, &TIME_UNITS);
        write!(f, "{number} {name}")
    }
}

/// The size in the last of its units of which it is a whole number.
impl Display for Size {
    fn fmt<W: fmt::Write>(&self, f: &mut fmt::Formatter<W>) -> fmt::Result {
        let (number, name) = whole_in(self.bits, &SIZE_UNITS);
        write!(f, "{number} {name}")
    }
}

/// The rate in the last of its units of which it is a whole number.
impl Display for Rate {
    fn fmt<W: fmt::Write>(&self, f: &mut fmt::Formatter<W>) -> fmt::Result {
        let (number, name) = whole_in(self.bits_a_second, &RATE_UNITS);
        write!(f, "{number} {name}")
    }
}

/// A decimal number: its digits as a whole number, and how many of them stand behind the point.
#[derive(Clone, Copy)]
struct Decimal {
    digits: u128,
    places: u32,
}

impl Decimal {
    /// The number with one more digit, which stands behind the point or not.
    fn with(self, digit: u8, is_behind: bool) -> Result<Decimal, BadQuantity> {
        if !digit.is_ascii_digit() {
            return Err(BadQuantity::Number);
        }
        let digits = self
            .digits
            .checked_mul(10)
            .and_then(|digits| digits.checked_add(u128::from(digit - b'0')))
            .ok_or(BadQuantity::Large)?;
        let places = if is_behind {
            self.places.saturating_add(1)
        } else {
            self.places
        };
        Ok(Decimal { digits, places })
    }
}

/// The last of these units of which a quantity is a whole number, behind that number. The first is the base unit.
pub(crate) fn whole_in(quantity: u64, units: &[Unit]) -> (u64, &'static str) {
    let mut whole = (quantity, units.first().map_or("", |(name, _)| *name));
    for &(name, scale) in units {
        if scale > 0 && quantity >= scale && quantity % scale == 0 {
            whole = (quantity / scale, name);
        }
    }
    whole
}

/// The quantity that a text says, in the base unit.
fn parse(text: &[u8], units: &[Unit]) -> Result<u64, BadQuantity> {
    let text = text.trim_ascii();
    let end = text
        .iter()
        .position(|byte| !byte.is_ascii_digit() && *byte != b'.')
        .unwrap_or(text.len());
    let number = number_in(&text[..end])?;
    let name = text[end..].trim_ascii();
    let (_, scale) = units
        .iter()
        .find(|(known, _)| known.as_bytes() == name)
        .ok_or(BadQuantity::Unit)?;
    let divisor = 10u128.checked_pow(number.places).ok_or(BadQuantity::Large)?;
    let product = number
        .digits
        .checked_mul(u128::from(*scale))
        .ok_or(BadQuantity::Large)?;
    if product.checked_rem(divisor) != Some(0) {
        return Err(BadQuantity::Inexact);
    }
    let quantity = product.checked_div(divisor).ok_or(BadQuantity::Large)?;
    u64::try_from(quantity).map_err(|_| BadQuantity::Large)
}

/// The number that this text is, which has digits and at most one point.
fn number_in(text: &[u8]) -> Result<Decimal, BadQuantity> {
    if !text.first().is_some_and(u8::is_ascii_digit)
        || !text.last().is_some_and(u8::is_ascii_digit)
    {
        return Err(BadQuantity::Number);
    }
    let mut number = Decimal {
        digits: 0,
        places: 0,
    };
    let mut is_behind = false;
    for byte in text {
        if *byte == b'.' {
            if is_behind {
                return Err(BadQuantity::Number);
            }
            is_behind = true;
        } else {
            number = number.with(*byte, is_behind)?;
        }
    }
    Ok(number)
}
