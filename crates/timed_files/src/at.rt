//! A line `at TIME OPERATION`.
use field_units::Time;
use scenario_reader::values::number;
use std::str;

// The most rounds of a scenario.
const MOST_ROUNDS: u64 = 524_288;

/// Why a line that has to do with ticks is refused.
#[derive(Clone, Copy, Debug, PartialEq, Eq)]
pub enum BadLine {
    /// What follows `at` is neither a tick from 0 to 524,288 nor a time that comes to one.
    Time,
    /// It is a time, and the file doesn't say how long a tick is.
    NoTick,
    /// No operation follows the time.
    Operation,
    /// The tick is before that of an operation of the same caller above.
    Falls { before: u64 },
    /// The tick comes after the last round.
    Late { rounds: u64 },
    /// The file has a schedule of its own.
    Schedule,
    /// It follows `at TIME end`.
    AfterEnd,
    /// `both` isn't followed by the names of two requests of this caller.
    Pair,
    /// A design's note `# both` isn't followed by the names of two of its streams of one group.
    Streams,
}

/// What stands in such a line.
#[derive(Clone, Copy)]
pub struct At<'a> {
    pub moment: Moment,
    /// The line from its operation on.
    pub operation: &'a [u8],
}

/// A tick, and the time that was rounded up to it, if one was.
#[derive(Clone, Copy)]
pub struct Moment {
    pub tick: u64,
    pub rounded: Option<Time>,
}

/// What a line without its word `at` and the space behind it says, where a tick is so long.
pub fn at_in(rest: &[u8], tick: Option<Time>) -> Result<At<'_>, BadLine> {
    let Some(place) = operation_at(rest) else {
        return Err(BadLine::Operation);
    };
    let (Some(time), Some(operation)) = (rest.get(..place), rest.get(place..)) else {
        return Err(BadLine::Operation);
    };
    let moment = moment_of(time.trim_ascii(), tick)?;
    Ok(At { moment, operation })
}

// Where the first word stands that is an operation's.
fn operation_at(rest: &[u8]) -> Option<usize> {
    let mut place: usize = 0;
    for field in rest.split(|byte| *byte == b' ') {
        if is_operation(field) || is_end_or_pair(field) {
            return Some(place);
        }
        place = place.saturating_add(field.len()).saturating_add(1);
    }
    None
}

// Whether it is one of the words that follow a time alone.
fn is_end_or_pair(word: &[u8]) -> bool {
    word == b"end".as_slice() || word == b"both".as_slice()
}

/// Whether an operation begins with this word.
pub fn is_operation(word: &[u8]) -> bool {
    word == b"open".as_slice()
        || word == b"send".as_slice()
        || word == b"close".as_slice()
        || word == b"pour".as_slice()
        || word == b"move".as_slice()
}

// The tick of a moment, which is a tick itself or a time.
fn moment_of(text: &[u8], tick: Option<Time>) -> Result<Moment, BadLine> {
    if let Ok(tick) = number(text, 0, MOST_ROUNDS) {
        return Ok(Moment {
            tick,
            rounded: None,
        });
    }
    let Ok(text) = str::from_utf8(text) else {
        return Err(BadLine::Time);
    };
    let Ok(time) = Time::parse(text) else {
        return Err(BadLine::Time);
    };
    match tick {
        Some(length) => in_ticks(time, length),
        None => Err(BadLine::NoTick),
    }
}

// A time in ticks, rounded up.
fn in_ticks(time: Time, length: Time) -> Result<Moment, BadLine> {
    if length.picoseconds == 0 {
        return Err(BadLine::NoTick);
    }
    let tick = time.picoseconds.div_ceil(length.picoseconds);
    if tick > MOST_ROUNDS {
        return Err(BadLine::Time);
    }
    let is_whole = time.picoseconds % length.picoseconds == 0;
    Ok(Moment {
        tick,
        rounded: if is_whole { None } else { Some(time) },
    })
}
