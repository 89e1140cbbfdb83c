//! Why a file becomes no schedule, and what is said of it.
use crate::at::BadLine;
use crate::cut::cut_scenario;
use crate::notes::noted_tick;
use call_times::TimesFault;
use net_units::OutOfMemory;
use network_files::{BadNetwork, Refused, refusal_of};
use std::alloc::{AllocError, AllocFailed, Global};

/// Why a file becomes no schedule.
#[derive(Drop)]
pub enum BadTimed {
    /// Out of memory.
    Memory,
    /// The scenario with its schedule has more bytes than one may have.
    TooLong,
    /// It describes no network. A line is named by its number in the file.
    Network(BadNetwork),
    /// A line that has to do with ticks is refused.
    Line { line: u64, why: BadLine },
    /// An operation of a design comes after its last round.
    Late { rounds: u64 },
    /// A caller has steps left after its operations. That never comes.
    Left,
}

impl From<AllocError> for BadTimed {
    fn from(_refused: AllocError) -> BadTimed {
        BadTimed::Memory
    }
}

impl<T: Drop> From<AllocFailed<T>> for BadTimed {
    fn from(_refused: AllocFailed<T>) -> BadTimed {
        BadTimed::Memory
    }
}

impl From<OutOfMemory> for BadTimed {
    fn from(_refused: OutOfMemory) -> BadTimed {
        BadTimed::Memory
    }
}

impl From<BadNetwork> for BadTimed {
    fn from(bad: BadNetwork) -> BadTimed {
        BadTimed::Network(bad)
    }
}

impl From<TimesFault> for BadTimed {
    fn from(fault: TimesFault) -> BadTimed {
        match fault {
            TimesFault::Memory => BadTimed::Memory,
            TimesFault::Late { rounds, .. } => BadTimed::Late { rounds },
            TimesFault::Missing { .. } | TimesFault::Falls { .. } | TimesFault::Left { .. } =>
                BadTimed::Left,
        }
    }
}

/// What is said of a file of this name and these bytes that becomes no schedule, and how it is refused.
pub fn refusal_of_timed(
    alloc: Global,
    name: &str,
    bytes: &[u8],
    bad: &BadTimed,
) -> Result<(String, Refused), AllocError> {
    match bad {
        BadTimed::Memory => Err(AllocError),
        BadTimed::TooLong => {
            let text = format!(in alloc;
                "ask: {name} with its schedule has more than 4,194,304 bytes\n"
            )?;
            Ok((text, Refused::File))
        }
        BadTimed::Network(bad) => network_text(alloc, name, bytes, bad),
        BadTimed::Line { line, why } => {
            Ok((line_text(alloc, name, bytes, *line, *why)?, Refused::Line))
        }
        BadTimed::Late { rounds } => {
            let text = format!(in alloc;
                "ask: {name}: a stream begins or ends after the last round, {rounds}; a longer run = at the top would do\n"
            )?;
            Ok((text, Refused::Line))
        }
        BadTimed::Left => {
            let text = format!(in alloc; "ask: {name}: a caller has steps left\n")?;
            Ok((text, Refused::Line))
        }
    }
}

// A line of the file as it was read: without its tick.
fn network_text(
    alloc: Global,
    name: &str,
    bytes: &[u8],
    bad: &BadNetwork,
) -> Result<(String, Refused), AllocError> {
    match cut_scenario(alloc, bytes, noted_tick(bytes), &[]) {
        Ok(cut) => refusal_of(alloc, name, cut.plain.as_slice(), bad),
        Err(_) => refusal_of(alloc, name, bytes, bad),
    }
}

// A line that is refused for its tick, and what would do.
fn line_text(
    alloc: Global,
    name: &str,
    bytes: &[u8],
    number: u64,
    why: BadLine,
) -> Result<String, AllocError> {
    let mut text = format!(in alloc; "{name}:{number}: refused: ")?;
    push_shown(&mut text, line_at(bytes, number))?;
    text.push_str("\n  ")?;
    text.push_str(cure_of(alloc, why)?.as_str())?;
    text.push('\n')?;
    Ok(text)
}

// What has to hold of a line that is refused so.
fn cure_of(alloc: Global, why: BadLine) -> Result<String, AllocError> {
    match why {
        BadLine::Time => String::from_str(
            alloc,
            "at needs a tick from 0 to 524,288, or a time as 5 ms that comes to one",
        ),
        BadLine::NoTick => String::from_str(
            alloc,
            "a time needs a note on how long a tick is, as # tick 10 us",
        ),
        BadLine::Operation => String::from_str(
            alloc,
            "at and its time have to be followed by open, send, close, move, pour or end",
        ),
        BadLine::Falls { before } => {
            format!(in alloc;
                "an operation of this caller above comes at tick {before}; its ticks may not fall"
            )
        }
        BadLine::Late { rounds } => {
            format!(in alloc; "the last round is {rounds}; nothing comes after it")
        }
        BadLine::Schedule => String::from_str(
            alloc,
            "the schedule is made from the ticks, so none may stand here",
        ),
        BadLine::AfterEnd => {
            String::from_str(alloc, "at TIME end has to be the last line, notes aside")
        }
        BadLine::Pair => String::from_str(
            alloc,
            "both has to be followed by the names of two requests that this caller opens above",
        ),
        BadLine::Streams => String::from_str(
            alloc,
            "the note both has to be followed by the names of two streams of one group",
        ),
    }
}

// The line of a number, from 1.
fn line_at(bytes: &[u8], number: u64) -> &[u8] {
    let mut at: u64 = 0;
    for line in bytes.split(|byte| *byte == b'\n') {
        at = at.saturating_add(1);
        if at == number {
            return line;
        }
    }
    &[]
}

// The most bytes that are shown of a line.
const MOST_SHOWN: usize = 160;

// Adds bytes, with `?` for each that a terminal may take for a command.
fn push_shown(text: &mut String, bytes: &[u8]) -> Result<(), AllocError> {
    for byte in bytes.iter().take(MOST_SHOWN) {
        if *byte >= b' ' && *byte <= b'~' {
            text.push(char::from(*byte))?;
        } else {
            text.push('?')?;
        }
    }
    Ok(())
}
