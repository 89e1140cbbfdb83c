//! The table of variants, as CSV and as JSON.
use crate::columns::{has_least, heads_of, names_in, place_of};
use crate::outcome::{Judged, Outcome};
use crate::said::{accepted_in, denied_in, shown_at};
use answer_grids::Cell;
use csv::{Writer, WriterBuilder};
use net_units::Name;
use network_variants::{Change, Variants};
use serde_json::{Map, Value};
use std::alloc::{AllocError, Global};

/// A table whose columns come from a file's names.
#[derive(Drop)]
pub(crate) struct Sheet {
    heads: Vec<String>,
    rows: Vec<Vec<Cell>>,
}

/// The table of these outcomes.
pub(crate) fn sheet_of(
    alloc: Global,
    variants: &Variants,
    outcomes: &[Outcome],
) -> Result<Sheet, AllocError> {
    let names = names_in(alloc, outcomes)?;
    let with_least = has_least(outcomes);
    let heads = heads_of(alloc, variants, names.as_slice(), with_least)?;
    let mut rows = Vec::new(alloc);
    let mut number: usize = 0;
    for outcome in outcomes {
        let mut row = values_of(alloc, variants, number)?;
        add_outcome(alloc, &mut row, outcome)?;
        add_delays(&mut row, names.as_slice(), outcome, with_least)?;
        rows.push(row)?;
        number = number.saturating_add(1);
    }
    Ok(Sheet { heads, rows })
}

// The values of a variant.
fn values_of(alloc: Global, variants: &Variants, number: usize) -> Result<Vec<Cell>, AllocError> {
    let mut row = Vec::new(alloc);
    for change in &variants.changes {
        row.push(value_cell(alloc, change, number)?)?;
    }
    Ok(row)
}

// A value: a number where it is one.
fn value_cell(alloc: Global, change: &Change, number: usize) -> Result<Cell, AllocError> {
    let value = shown_at(change, number);
    match value.parse::<u64>() {
        Ok(value) => Ok(Cell::Number(value)),
        Err(_) => Cell::text(alloc, value),
    }
}

// Adds what a variant comes to.
fn add_outcome(alloc: Global, row: &mut Vec<Cell>, outcome: &Outcome) -> Result<(), AllocError> {
    match outcome {
        Outcome::Judged(judged) => {
            row.push(Cell::Number(accepted_in(judged) as u64))?;
            row.push(Cell::Text(denied_in(alloc, judged)?))?;
            row.push(Cell::Text(tight_text(alloc, judged)?))?;
            row.push(Cell::Nothing)?;
        }
        Outcome::Refused { line, cause } => {
            row.push(Cell::Nothing)?;
            row.push(Cell::Nothing)?;
            row.push(Cell::Nothing)?;
            let cause = cause.as_str();
            row.push(Cell::Text(format!(in alloc; "{line} {cause}")?))?;
        }
    }
    Ok(())
}

// The links that are tight.
fn tight_text(alloc: Global, judged: &Judged) -> Result<String, AllocError> {
    let mut text = String::new(alloc);
    for name in judged.tight.as_slice() {
        if !text.is_empty() {
            text.push(' ')?;
        }
        text.push_str(name.as_str())?;
    }
    Ok(text)
}

// Adds the delays of the requests of these names.
fn add_delays(
    row: &mut Vec<Cell>,
    names: &[Name],
    outcome: &Outcome,
    with_least: bool,
) -> Result<(), AllocError> {
    match outcome {
        Outcome::Judged(judged) => {
            add_numbers(row, names, judged, judged.promised.as_slice())?;
            if with_least {
                add_numbers(row, names, judged, judged.least.as_slice())?;
            }
        }
        Outcome::Refused { .. } => {
            add_nothing(row, names.len())?;
            if with_least {
                add_nothing(row, names.len())?;
            }
        }
    }
    Ok(())
}

// Adds each request's number of these.
fn add_numbers(
    row: &mut Vec<Cell>,
    names: &[Name],
    judged: &Judged,
    numbers: &[Option<u64>],
) -> Result<(), AllocError> {
    for place in 0..names.len() {
        let found = place_of(judged.names.as_slice(), &names[place], place);
        let number = found.and_then(|at| numbers.get(at).copied().flatten());
        row.push(Cell::number(number))?;
    }
    Ok(())
}

// Adds so many empty cells.
fn add_nothing(row: &mut Vec<Cell>, count: usize) -> Result<(), AllocError> {
    for _ in 0..count {
        row.push(Cell::Nothing)?;
    }
    Ok(())
}

/// The CSV of a table.
pub(crate) fn csv_of(alloc: Global, sheet: &Sheet) -> Result<Vec<u8>, AllocError> {
    let mut page = WriterBuilder::new()
        .flexible(true)
        .from_writer(Vec::new(alloc));
    for head in &sheet.heads {
        write_field(&mut page, head.as_str())?;
    }
    end_row(&mut page)?;
    for row in &sheet.rows {
        write_row(alloc, &mut page, row.as_slice())?;
    }
    page.into_inner().ok().ok_or(AllocError)
}

// Writes a row.
fn write_row(alloc: Global, page: &mut Writer<Vec<u8>>, row: &[Cell]) -> Result<(), AllocError> {
    for cell in row {
        write_cell(alloc, page, cell)?;
    }
    end_row(page)
}

// Writes a cell.
fn write_cell(alloc: Global, page: &mut Writer<Vec<u8>>, cell: &Cell) -> Result<(), AllocError> {
    match cell {
        Cell::Number(number) => {
            let digits = format!(in alloc; "{number}")?;
            write_field(page, digits.as_str())
        }
        Cell::Text(text) => write_field(page, text.as_str()),
        Cell::Nothing | Cell::Numbers(_) => write_field(page, ""),
    }
}

// Writes a field. Writes to memory fail for want of memory alone.
fn write_field(page: &mut Writer<Vec<u8>>, text: &str) -> Result<(), AllocError> {
    page.write_field(text.as_bytes()).ok().ok_or(AllocError)
}

// Ends a row.
fn end_row(page: &mut Writer<Vec<u8>>) -> Result<(), AllocError> {
    let none: [&[u8]; 0] = [];
    page.write_fields(&none).ok().ok_or(AllocError)
}

/// The JSON of a table with its sentences, and whether it is a yes.
pub(crate) fn json_of(
    alloc: Global,
    sheet: &Sheet,
    lines: &[String],
    holds: bool,
) -> Result<Vec<u8>, AllocError> {
    let mut map = Map::new(alloc);
    let rows = rows_value(alloc, sheet)?;
    put(alloc, &mut map, "rows", rows)?;
    let lines = lines_value(alloc, lines)?;
    put(alloc, &mut map, "answer", lines)?;
    put(alloc, &mut map, "yes", Value::Bool(holds))?;
    let mut text = Value::Object(map).to_string(alloc)?;
    text.push('\n')?;
    Vec::from_slice(alloc, text.as_bytes())
}

// The rows.
fn rows_value(alloc: Global, sheet: &Sheet) -> Result<Value, AllocError> {
    let mut rows = Vec::new(alloc);
    for row in &sheet.rows {
        rows.push(row_value(alloc, sheet.heads.as_slice(), row.as_slice())?)?;
    }
    Ok(Value::Array(rows))
}

// A row, by the heads of the columns.
fn row_value(alloc: Global, heads: &[String], row: &[Cell]) -> Result<Value, AllocError> {
    let mut map = Map::new(alloc);
    for (head, cell) in heads.iter().zip(row) {
        put(alloc, &mut map, head.as_str(), cell_value(alloc, cell)?)?;
    }
    Ok(Value::Object(map))
}

// A cell.
fn cell_value(alloc: Global, cell: &Cell) -> Result<Value, AllocError> {
    match cell {
        Cell::Number(number) => Ok(Value::from(*number)),
        Cell::Text(text) => Ok(Value::String(String::from_str(alloc, text.as_str())?)),
        Cell::Nothing | Cell::Numbers(_) => Ok(Value::Null),
    }
}

// The sentences.
fn lines_value(alloc: Global, lines: &[String]) -> Result<Value, AllocError> {
    let mut list = Vec::new(alloc);
    for line in lines {
        list.push(Value::String(String::from_str(alloc, line.as_str())?))?;
    }
    Ok(Value::Array(list))
}

// Puts a member into an object.
fn put(
    alloc: Global,
    map: &mut Map<String, Value>,
    name: &str,
    value: Value,
) -> Result<(), AllocError> {
    map.insert(String::from_str(alloc, name)?, value)?;
    Ok(())
}
