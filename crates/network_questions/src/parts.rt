//! What is common to the answers.
use answer_grids::{Cell, Column, time_text};
use call_script::{Plan, RequestEntry};
use field_units::Time;
use net_units::{LinkNo, Name};
use std::alloc::{AllocError, Global};

/// Adds a column. No clause tells of it, so that proofs of long tables stay short.
pub(crate) fn add_column(columns: &mut Vec<Column>, column: Column) -> Result<(), AllocError> {
    columns.push(column)?;
    Ok(())
}

/// Adds a cell, likewise.
pub(crate) fn add_cell(cells: &mut Vec<Cell>, cell: Cell) -> Result<(), AllocError> {
    cells.push(cell)?;
    Ok(())
}

/// Adds a sentence, likewise.
pub(crate) fn add_line(lines: &mut Vec<String>, line: String) -> Result<(), AllocError> {
    lines.push(line)?;
    Ok(())
}

/// How long so many ticks are, as a cell; an empty one where there are none.
pub fn time_cell(alloc: Global, ticks: Option<u64>, tick: Time) -> Result<Cell, AllocError> {
    match ticks {
        Some(ticks) => Ok(Cell::Text(time_text(alloc, ticks, tick)?)),
        None => Ok(Cell::Nothing),
    }
}

/// The number of the request of this name.
pub fn request_named(plan: &Plan, name: &Name) -> Option<usize> {
    plan.requests()
        .iter()
        .position(|entry: &RequestEntry| entry.name == *name)
}

/// The name of a link of a plan; an empty one where the plan has no such link.
pub fn link_name(plan: &Plan, link: LinkNo) -> &str {
    match plan.links().get(usize::from(link.get())) {
        Some(entry) => entry.name.as_str(),
        None => "",
    }
}

/// Two numbers, one beside the other.
pub(crate) fn pair_text(alloc: Global, part: u64, whole: u64) -> Result<String, AllocError> {
    format!(in alloc; "{part}/{whole}")
}

/// Millionths as percent, as a cell, with one decimal that is rounded up.
pub(crate) fn percent_cell(alloc: Global, millionths: u64) -> Result<Cell, AllocError> {
    let tenths = millionths.div_ceil(1_000);
    let (whole, tenth) = (tenths / 10, tenths % 10);
    Ok(Cell::Text(format!(in alloc; "{whole}.{tenth}")?))
}

/// Adds two numbers, for text one beside the other, and each for itself.
pub(crate) fn push_pair(
    alloc: Global,
    cells: &mut Vec<Cell>,
    part: u64,
    whole: u64,
) -> Result<(), AllocError> {
    add_cell(cells, Cell::Text(pair_text(alloc, part, whole)?))?;
    add_cell(cells, Cell::Number(part))?;
    add_cell(cells, Cell::Number(whole))?;
    Ok(())
}

/// Numbers with spaces between them. More than three of the same in a row are shown as `1x12`.
pub(crate) fn runs_text(alloc: Global, numbers: &[u64]) -> Result<String, AllocError> {
    let mut text = String::new(alloc);
    let mut last: u64 = 0;
    let mut count: usize = 0;
    for number in numbers {
        if *number != last {
            push_run(alloc, &mut text, last, count)?;
            last = *number;
            count = 0;
        }
        count = count.saturating_add(1);
    }
    push_run(alloc, &mut text, last, count)?;
    Ok(text)
}

// Adds so many of a number.
fn push_run(alloc: Global, text: &mut String, number: u64, count: usize) -> Result<(), AllocError> {
    let (shown, times) = if count > 3 {
        (format!(in alloc; "{number}x{count}")?, 1)
    } else {
        (format!(in alloc; "{number}")?, count)
    };
    for _ in 0..times {
        if !text.is_empty() {
            text.push(' ')?;
        }
        text.push_str(shown.as_str())?;
    }
    Ok(())
}
