//! The scenario of a design whose streams come and go, with its operations at their ticks.

use crate::plan::DesignPlan;
use crate::text::write_design;
use byte_ends::MemSink;
use field_units::Scale;
use scenario_reader::ReportFault;
use std::alloc::{AllocError, Global};

/// The most bytes of a scenario.
const MOST_BYTES: usize = 4_194_304;

/// The scenario with a line `at TICK OPERATION` for each operation and `at TICK end` in place of its rounds, of which `ask schedule` makes one with
/// a schedule. None where the plan has groups, with which such a text can't be.
pub fn timed_text(
    alloc: Global,
    scale: &Scale,
    made: &DesignPlan,
) -> Result<Option<String>, ReportFault> {
    if !made.plan.groups().is_empty() {
        return Ok(None);
    }
    let mut sink = MemSink::new(alloc, MOST_BYTES, MOST_BYTES, Vec::new(alloc))?;
    write_design(alloc, scale, &made.plan, &mut sink)?;
    let mut text = String::new(alloc);
    let mut count: usize = 0;
    for line in std::str::from_utf8(sink.bytes()).unwrap_or("").lines() {
        if is_operation(line) {
            let tick = tick_at(made, count);
            text.push_str(format!(in alloc; "at {tick} {line}\n")?.as_str())?;
            count = count.saturating_add(1);
        } else {
            push_other(alloc, line, &mut text)?;
        }
    }
    Ok(Some(text))
}

/// Whether a line is an operation of a caller.
fn is_operation(line: &str) -> bool {
    ["open ", "send ", "close ", "pour "]
        .iter()
        .any(|word| line.starts_with(*word))
}

/// The tick of an operation, by its number among those of all callers.
fn tick_at(made: &DesignPlan, number: usize) -> u64 {
    made.times
        .iter()
        .flat_map(|caller| caller.operations.iter())
        .nth(number)
        .map_or(0, |time| time.tick)
}

/// Adds a line that is no operation: the rounds become the end, and neither a caller nor a tail stands there.
fn push_other(alloc: Global, line: &str, text: &mut String) -> Result<(), AllocError> {
    if line.starts_with("caller ") || line.starts_with("tail ") {
        return Ok(());
    }
    match line.strip_prefix("rounds ") {
        Some(rounds) => text.push_str(format!(in alloc; "at {rounds} end\n")?.as_str()),
        None => text.push_str(format!(in alloc; "{line}\n")?.as_str()),
    }
}
