//! The outcomes of variants in sentences, as CSV and as JSON.
use crate::outcome::{Judged, Outcome};
use crate::sheet::{csv_of, json_of, sheet_of};
use answer_grids::Format;
use network_variants::{Change, Variants};
use std::alloc::{AllocError, Global};

/// What is said of the variants.
#[derive(Drop)]
pub struct Summary {
    /// The answer in its format.
    pub bytes: Vec<u8>,
    /// Whether a variant accepts all its requests.
    pub holds: bool,
}

/// What is said of variants with these outcomes.
pub fn summary_of(
    alloc: Global,
    variants: &Variants,
    outcomes: &[Outcome],
    format: Format,
) -> Result<Summary, AllocError> {
    let holds = any_accepts_all(outcomes);
    let bytes = match format {
        Format::Text => {
            let lines = lines_of(alloc, variants, outcomes)?;
            text_of(alloc, lines.as_slice())?
        }
        Format::Csv => {
            let sheet = sheet_of(alloc, variants, outcomes)?;
            csv_of(alloc, &sheet)?
        }
        Format::Json => {
            let lines = lines_of(alloc, variants, outcomes)?;
            let sheet = sheet_of(alloc, variants, outcomes)?;
            json_of(alloc, &sheet, lines.as_slice(), holds)?
        }
    };
    Ok(Summary { bytes, holds })
}

// Whether an outcome accepts all requests.
fn any_accepts_all(outcomes: &[Outcome]) -> bool {
    for outcome in outcomes {
        if let Outcome::Judged(judged) = outcome {
            if accepted_in(judged) == judged.promised.len() {
                return true;
            }
        }
    }
    false
}

/// How many requests are accepted.
pub(crate) fn accepted_in(judged: &Judged) -> usize {
    let mut count: usize = 0;
    for promised in &judged.promised {
        if promised.is_some() {
            count = count.saturating_add(1);
        }
    }
    count
}

// Lines, each with its line feed.
fn text_of(alloc: Global, lines: &[String]) -> Result<Vec<u8>, AllocError> {
    let mut text = Vec::new(alloc);
    for line in lines {
        text.extend_from_slice(line.as_bytes())?;
        text.push(b'\n')?;
    }
    Ok(text)
}

// A line for each variant. Variants one after another that differ only in the last change share a line where their outcomes are the same
// and the values of that change go up by the same step.
fn lines_of(
    alloc: Global,
    variants: &Variants,
    outcomes: &[Outcome],
) -> Result<Vec<String>, AllocError> {
    let mut lines = Vec::new(alloc);
    let joins = match variants.changes.last() {
        Some(change) => is_range(change),
        None => false,
    };
    let mut was = String::new(alloc);
    let mut first: usize = 0;
    let mut number: usize = 0;
    for outcome in outcomes {
        let text = outcome_text(alloc, outcome)?;
        if number > 0 && !(joins && goes_on(variants, number) && text.as_str() == was.as_str()) {
            let last = number.saturating_sub(1);
            lines.push(line_of(alloc, variants, first, last, was.as_str())?)?;
            first = number;
        }
        was = text;
        number = number.saturating_add(1);
    }
    if number > 0 {
        let last = number.saturating_sub(1);
        lines.push(line_of(alloc, variants, first, last, was.as_str())?)?;
    }
    Ok(lines)
}

// Whether the variant of a number differs from the one before it in the last change alone.
fn goes_on(variants: &Variants, number: usize) -> bool {
    match variants.changes.last() {
        Some(change) => change.pick(number) > 0,
        None => false,
    }
}

// Whether the values of a change are numbers, with the same unit, that go up by the same step.
fn is_range(change: &Change) -> bool {
    let mut before: Option<(u64, &str)> = None;
    let mut step: Option<u64> = None;
    for value in &change.shown {
        let Some((number, unit)) = number_and_unit(value.as_str()) else {
            return false;
        };
        if let Some((less, same)) = before {
            let Some(more) = number.checked_sub(less) else {
                return false;
            };
            if more == 0 || unit != same || step.unwrap_or(more) != more {
                return false;
            }
            step = Some(more);
        }
        before = Some((number, unit));
    }
    true
}

// The whole number that a value begins with, and what stands behind it.
fn number_and_unit(value: &str) -> Option<(u64, &str)> {
    let mut at: usize = 0;
    for byte in value.bytes() {
        if !byte.is_ascii_digit() {
            break;
        }
        at = at.saturating_add(1);
    }
    let number = value.get(..at)?.parse::<u64>().ok()?;
    let unit = value.get(at..)?;
    if unit.starts_with('.') || unit.contains(':') {
        return None;
    }
    Some((number, unit))
}

// The line of some variants with the same outcome.
fn line_of(
    alloc: Global,
    variants: &Variants,
    first: usize,
    last: usize,
    outcome: &str,
) -> Result<String, AllocError> {
    let mut line = String::new(alloc);
    let is_one = variants.changes.len() == 1;
    for change in &variants.changes {
        if !line.is_empty() {
            line.push(' ')?;
        }
        if !is_one {
            line.push_str(change.name.as_str())?;
            line.push('=')?;
        }
        line.push_str(shown_at(change, first))?;
        if change.pick(first) != change.pick(last) {
            line.push_str(" to ")?;
            line.push_str(shown_at(change, last))?;
        }
    }
    line.push_str(": ")?;
    line.push_str(outcome)?;
    Ok(line)
}

/// The value of a change in the variant of a number, as it was written.
pub(crate) fn shown_at(change: &Change, number: usize) -> &str {
    match change.shown.get(change.pick(number)) {
        Some(value) => value.as_str(),
        None => "",
    }
}

// An outcome in words.
fn outcome_text(alloc: Global, outcome: &Outcome) -> Result<String, AllocError> {
    match outcome {
        Outcome::Refused { line, cause } => {
            let cause = cause.as_str();
            format!(in alloc; "refused {line} {cause}")
        }
        Outcome::Judged(judged) => judged_text(alloc, judged),
    }
}

// What requests come to, in words.
fn judged_text(alloc: Global, judged: &Judged) -> Result<String, AllocError> {
    let count = accepted_in(judged);
    let mut text = format!(in alloc; "{count} accepted")?;
    let denied = denied_in(alloc, judged)?;
    if !denied.is_empty() {
        text.push_str(", denied: ")?;
        text.push_str(denied.as_str())?;
    }
    if !judged.least.is_empty() {
        text.push_str("; least:")?;
        add_least(alloc, &mut text, judged)?;
    }
    Ok(text)
}

/// The names of the requests that are denied, with spaces between them.
pub(crate) fn denied_in(alloc: Global, judged: &Judged) -> Result<String, AllocError> {
    let mut text = String::new(alloc);
    for (name, promised) in judged.names.iter().zip(judged.promised.iter()) {
        if promised.is_none() {
            if !text.is_empty() {
                text.push(' ')?;
            }
            text.push_str(name.as_str())?;
        }
    }
    Ok(text)
}

// Adds the least delays, a dash where none will do.
fn add_least(alloc: Global, text: &mut String, judged: &Judged) -> Result<(), AllocError> {
    for (name, least) in judged.names.iter().zip(judged.least.iter()) {
        text.push(' ')?;
        text.push_str(name.as_str())?;
        text.push(' ')?;
        match least {
            Some(delay) => {
                let digits = format!(in alloc; "{delay}")?;
                text.push_str(digits.as_str())?;
            }
            None => text.push('-')?,
        }
    }
    Ok(())
}
