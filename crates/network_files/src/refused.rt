//! What is said of a file that describes no network.
use crate::cures::cure_of;
use crate::fields::fault_in;
use crate::network::BadNetwork;
use design_file::Mistake;
use scenario_reader::Cause;
use std::alloc::{AllocError, Global};

/// Whether a file is refused as a whole, or for what stands in it.
#[derive(Clone, Copy, Debug, PartialEq, Eq)]
pub enum Refused {
    /// It is too long.
    File,
    /// A line is refused.
    Line,
}

/// What is said of a file of this name and these bytes, and how it is refused.
pub fn refusal_of(
    alloc: Global,
    name: &str,
    bytes: &[u8],
    bad: &BadNetwork,
) -> Result<(String, Refused), AllocError> {
    match bad {
        BadNetwork::Memory => Err(AllocError),
        BadNetwork::TooLong => {
            let text = format!(in alloc; "ask: {name} has more than 4,194,304 bytes\n")?;
            Ok((text, Refused::File))
        }
        BadNetwork::NotText => {
            let text = format!(in alloc;
                "ask: {name} is neither a scenario nor a design: it isn't UTF-8\n"
            )?;
            Ok((text, Refused::Line))
        }
        BadNetwork::NoScale => {
            let text = format!(in alloc;
                "{name}:1: no tick and unit were found; write tick = and unit = at the top\n"
            )?;
            Ok((text, Refused::Line))
        }
        BadNetwork::Line { line, cause } => {
            Ok((line_text(alloc, name, bytes, *line, *cause)?, Refused::Line))
        }
        BadNetwork::Mistakes(list) => Ok((mistakes_text(alloc, list.as_slice())?, Refused::Line)),
    }
}

// All mistakes of a design.
fn mistakes_text(alloc: Global, list: &[Mistake]) -> Result<String, AllocError> {
    let mut text = String::new(alloc);
    for mistake in list {
        let line = format!(in alloc; "{mistake}\n")?;
        push_seen(&mut text, line.as_str())?;
    }
    Ok(text)
}

// A line of a scenario, the field where it can be named, and what would do.
fn line_text(
    alloc: Global,
    name: &str,
    bytes: &[u8],
    number: u64,
    cause: Cause,
) -> Result<String, AllocError> {
    let line = line_at(bytes, number);
    let mut text = format!(in alloc; "{name}:{number}: refused: ")?;
    push_bytes(&mut text, line)?;
    text.push('\n')?;
    if let Some(fault) = fault_in(line, cause) {
        let (place, label) = (fault.place, fault.label);
        let at = format!(in alloc; "  field {place}, {label}: ")?;
        text.push_str(at.as_str())?;
        push_bytes(&mut text, fault.field)?;
        text.push('\n')?;
        if let Some((least, most)) = fault.range {
            let range = format!(in alloc; "  {label} has to be from {least} to {most}\n")?;
            text.push_str(range.as_str())?;
        }
    }
    if matches!(line, [.., b'\r']) {
        text.push_str("  it ends with a carriage return; tr -d '\\r' removes them\n")?;
    }
    let cure = cure_of(cause);
    let sentence = format!(in alloc; "  {cause}: {cure}\n")?;
    text.push_str(sentence.as_str())?;
    Ok(text)
}

// The line of a number, from 1.
fn line_at(bytes: &[u8], number: u64) -> &[u8] {
    let mut at: u64 = 0;
    for line in bytes.split(|byte| *byte == b'\n') {
        at = at.saturating_add(1);
        if at == number {
            return line;
        }
    }
    &[]
}

// The most characters that are shown of a line.
const MOST_SHOWN: usize = 160;

/// Adds bytes, with `?` for each that a terminal may take for a command.
pub(crate) fn push_bytes(text: &mut String, bytes: &[u8]) -> Result<(), AllocError> {
    for byte in bytes.iter().take(MOST_SHOWN) {
        if *byte >= b' ' && *byte <= b'~' {
            text.push(char::from(*byte))?;
        } else {
            text.push('?')?;
        }
    }
    if bytes.len() > MOST_SHOWN {
        text.push_str(" ..")?;
    }
    Ok(())
}

/// Adds a text, with `?` for each control character but line feeds.
pub fn push_seen(text: &mut String, piece: &str) -> Result<(), AllocError> {
    for mark in piece.chars() {
        if mark.is_control() && mark != '\n' {
            text.push('?')?;
        } else {
            text.push(mark)?;
        }
    }
    Ok(())
}
