//! The text of a scenario whose schedule was made, with its notes.
use crate::cut::{Closed, OpLine, Pair};
use call_times::Made;
use field_units::Time;
use std::alloc::{AllocError, Global};
use std::str;

/// How long a tick is by the first note `# tick TIME` of a scenario: None where there is none, or it says no time above 0.
pub fn noted_tick(bytes: &[u8]) -> Option<Time> {
    for line in bytes.split(|byte| *byte == b'\n') {
        if let Some(rest) = line.strip_prefix(b"# tick ") {
            return time_of(rest);
        }
    }
    None
}

// The time that a text says, if that is one above 0.
fn time_of(text: &[u8]) -> Option<Time> {
    let text = str::from_utf8(text).ok()?;
    match Time::parse(text) {
        Ok(time) if time.picoseconds > 0 => Some(time),
        _ => None,
    }
}

/// The notes of a file on its tick and its unit, as they stand there.
pub fn push_scale(text: &mut String, bytes: &[u8]) -> Result<(), AllocError> {
    for line in bytes.split(|byte| *byte == b'\n') {
        if line.starts_with(b"# tick ") || line.starts_with(b"# unit ") {
            text.push_str(str::from_utf8(line).unwrap_or("#"))?;
            text.push('\n')?;
        }
    }
    Ok(())
}

/// A note on each time that was rounded up to a tick.
pub fn push_rounded(
    alloc: Global,
    text: &mut String,
    operations: &[OpLine],
) -> Result<(), AllocError> {
    for operation in operations {
        if let Some(time) = operation.rounded {
            let (line, tick) = (operation.line, operation.tick);
            let note = format!(in alloc; "# line {line}: {time} is rounded up to tick {tick}\n")?;
            text.push_str(note.as_str())?;
        }
    }
    Ok(())
}

/// How a note names the place of a pair: by its line in the file or, of a design, by the names alone.
#[derive(Clone, Copy, Debug, PartialEq, Eq)]
pub enum Naming {
    Lines,
    Names,
}

/// A note on each pair of which one request is closed, since the other was denied.
pub fn push_closed(
    alloc: Global,
    text: &mut String,
    pairs: &[Pair],
    named: Naming,
) -> Result<(), AllocError> {
    for pair in pairs {
        if let Some(closed) = pair.closed {
            let (first, second) = (shown(&pair.first), shown(&pair.second));
            let name = match closed {
                Closed::First => first,
                Closed::Second => second,
            };
            let line = pair.line;
            let place = match named {
                Naming::Lines => format!(in alloc; "line {line}: ")?,
                Naming::Names => String::new(alloc),
            };
            let place = place.as_str();
            let note = format!(in alloc;
                "# {place}not both {first} and {second} are accepted, so {name} is closed\n"
            )?;
            text.push_str(note.as_str())?;
        }
    }
    Ok(())
}

// A name as text.
fn shown(name: &Vec<u8>) -> &str {
    str::from_utf8(name.as_slice()).unwrap_or("?")
}

/// A scenario's text, in which a note on the tick stands before the items of callers in the schedule. The plane has this number.
pub fn push_noted(
    alloc: Global,
    text: &mut String,
    scenario: &str,
    made: &Made,
    plane: usize,
) -> Result<(), AllocError> {
    let mut place: usize = 0;
    for line in scenario.lines() {
        if line.starts_with("do ") {
            if begins_at(made, place, plane) {
                let tick = made.ticks.get(place).copied().unwrap_or(0);
                text.push_str(format!(in alloc; "# at {tick}\n")?.as_str())?;
            }
            place = place.saturating_add(1);
        }
        text.push_str(line)?;
        text.push('\n')?;
    }
    Ok(())
}

// Whether the item at this place is the first of a tick that is a caller's.
fn begins_at(made: &Made, place: usize, plane: usize) -> bool {
    let follows_caller = match place.checked_sub(1) {
        Some(before) => is_callers(made, before, plane),
        None => false,
    };
    is_callers(made, place, plane) && !follows_caller
}

// Whether the item at this place is a caller's.
fn is_callers(made: &Made, place: usize, plane: usize) -> bool {
    match made.schedule.items.as_slice().get(place) {
        Some(item) => usize::from(item.actor.get()) != plane,
        None => false,
    }
}
