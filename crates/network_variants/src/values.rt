//! The values of a change: a list `10,20,50`, and in it ranges `20..26` or `20..40/5`, with a unit behind them as in `1..4 ms`.
use crate::bad::{BadChange, refused_word};
use crate::making::MOST_VARIANTS;
use std::alloc::{AllocError, Global};

/// What a change puts in its places.
#[derive(Clone, Copy, Debug, PartialEq, Eq)]
pub(crate) enum Kind {
    /// A number of a scenario.
    Number,
    /// The levels of a scenario's link.
    Levels,
    /// What stands between the quotes of a design's text.
    Text,
    /// A number of a design, true or false.
    Bare,
    /// What stands between the first and the last quote of a design's list.
    List,
}

// A range, with what stands behind each of its numbers.
#[derive(Clone, Copy)]
struct Range<'a> {
    low: u64,
    high: u64,
    step: u64,
    unit: &'a str,
}

/// The values that the right side of the change at a place names, in their order.
pub(crate) fn values_of(
    alloc: Global,
    place: usize,
    right: &str,
) -> Result<Vec<String>, BadChange> {
    let mut values = Vec::new(alloc);
    for item in right.split(',') {
        match item.split_once("..") {
            Some((low, rest)) => {
                let Some(range) = range_of(low, rest) else {
                    return Err(bad_range(alloc, place, item));
                };
                add_range(alloc, &mut values, range)?;
            }
            None => {
                if item.is_empty() {
                    return Err(no_value(alloc, place, right));
                }
                values.push(String::from_str(alloc, item)?)?;
            }
        }
        if values.len() > MOST_VARIANTS {
            return Err(too_many(alloc, place, right));
        }
    }
    Ok(values)
}

// The range from LOW to what stands behind the two dots: HIGH, HIGH/STEP, and a unit.
fn range_of<'a>(low: &str, rest: &'a str) -> Option<Range<'a>> {
    let (numbers, unit) = without_unit(rest);
    let (high, step) = match numbers.split_once('/') {
        Some((high, step)) => (high, number_of(step)?),
        None => (numbers, 1),
    };
    let range = Range {
        low: number_of(low)?,
        high: number_of(high)?,
        step,
        unit,
    };
    if range.low <= range.high && range.step > 0 {
        Some(range)
    } else {
        None
    }
}

// A text cut before the first letter or space.
fn without_unit(text: &str) -> (&str, &str) {
    let long = numbers_length(text);
    (
        text.get(..long).unwrap_or(text),
        text.get(long..).unwrap_or(""),
    )
}

// How many digits and slashes stand at the front of a text.
fn numbers_length(text: &str) -> usize {
    let mut long: usize = 0;
    for byte in text.bytes() {
        if !byte.is_ascii_digit() && byte != b'/' {
            break;
        }
        long = long.saturating_add(1);
    }
    long
}

/// The number that a word is: 1 to 18 digits, without a leading 0.
pub(crate) fn number_of(word: &str) -> Option<u64> {
    if !is_number(word) {
        return None;
    }
    word.parse::<u64>().ok()
}

/// Whether a word is a number of a scenario.
pub(crate) fn is_number(word: &str) -> bool {
    let bytes = word.as_bytes();
    if bytes.is_empty() || bytes.len() > 18 {
        return false;
    }
    for byte in bytes {
        if !byte.is_ascii_digit() {
            return false;
        }
    }
    bytes.len() == 1 || !matches!(bytes, [b'0', ..])
}

// Adds the values of a range, and one more than there may be at most.
fn add_range(alloc: Global, values: &mut Vec<String>, range: Range) -> Result<(), AllocError> {
    let mut value = range.low;
    let unit = range.unit;
    for _ in 0..=MOST_VARIANTS {
        if value > range.high {
            break;
        }
        let text = format!(in alloc; "{value}{unit}")?;
        values.push(text)?;
        value = value.saturating_add(range.step);
    }
    Ok(())
}

/// What values of this kind put in the places of the change at a place.
pub(crate) fn words_of(
    alloc: Global,
    place: usize,
    kind: Kind,
    values: &[String],
) -> Result<Vec<Vec<u8>>, BadChange> {
    let mut words = Vec::new(alloc);
    for value in values {
        let value = value.as_str();
        if !is_value(kind, value) {
            return Err(bad_value(alloc, place, value, kind));
        }
        words.push(word_of(alloc, kind, value)?)?;
    }
    Ok(words)
}

// Whether a value is one of this kind.
fn is_value(kind: Kind, value: &str) -> bool {
    match kind {
        Kind::Number => is_number(value),
        Kind::Levels => is_number_list(value),
        Kind::Text | Kind::List => is_quiet(value),
        Kind::Bare => is_number(value) || value == "true" || value == "false",
    }
}

// Whether a value is numbers with colons between them.
fn is_number_list(value: &str) -> bool {
    for item in value.split(':') {
        if !is_number(item) {
            return false;
        }
    }
    true
}

// Whether a value may stand between quotes.
fn is_quiet(value: &str) -> bool {
    for byte in value.bytes() {
        if byte < b' ' || byte > b'~' || byte == b'"' || byte == b'\'' || byte == b'\\' {
            return false;
        }
    }
    true
}

// What a value puts in a place: spaces in place of the colons of levels, and quotes with a comma in a list.
fn word_of(alloc: Global, kind: Kind, value: &str) -> Result<Vec<u8>, AllocError> {
    let mut word = Vec::new(alloc);
    for byte in value.bytes() {
        if byte != b':' {
            word.push(byte)?;
        } else if kind == Kind::Levels {
            word.push(b' ')?;
        } else if kind == Kind::List {
            word.extend_from_slice(b"\", \"")?;
        } else {
            word.push(byte)?;
        }
    }
    Ok(word)
}

// A value isn't one.
fn bad_value(alloc: Global, place: usize, value: &str, kind: Kind) -> BadChange {
    let back = match kind {
        Kind::Number =>
            " isn't a number; wanted are 1 to 18 digits without a leading 0, a list as 10,20,50 or a range as 20..40/5",
        Kind::Levels =>
            " isn't a list of levels; wanted are numbers with colons between them, as in 10:20:40",
        Kind::Text | Kind::List =>
            " can't stand in a text; wanted are letters, digits, spaces and signs, and neither quotes nor backslashes",
        Kind::Bare => " isn't a whole number, true or false, as the value there is",
    };
    refused_word(alloc, place, "", value, back)
}

fn bad_range(alloc: Global, place: usize, item: &str) -> BadChange {
    refused_word(
        alloc,
        place,
        "",
        item,
        " isn't a range; wanted is LOW..HIGH or LOW..HIGH/STEP, as in 20..40/5, with whole numbers, LOW at most HIGH",
    )
}

fn no_value(alloc: Global, place: usize, right: &str) -> BadChange {
    refused_word(
        alloc,
        place,
        "a value of ",
        right,
        " is empty; wanted is a list as 10,20,50 or a range as 20..40/5",
    )
}

fn too_many(alloc: Global, place: usize, right: &str) -> BadChange {
    refused_word(
        alloc,
        place,
        "",
        right,
        " has more than 100,000 values; wanted are fewer",
    )
}
