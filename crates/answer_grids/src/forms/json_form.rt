//! An answer as JSON: an object with the rows, the sentences, and whether it is a yes.
use crate::grid::{Answer, Cell, Column};
use serde_json::{Map, Value};
use std::alloc::{AllocError, Global};

/// The JSON of an answer, with a line feed.
pub(crate) fn json_of(alloc: Global, answer: &Answer) -> Result<String, AllocError> {
    let value = answer_value(alloc, answer)?;
    let mut text = value.to_string(alloc)?;
    text.push('\n')?;
    Ok(text)
}

// The object of an answer.
fn answer_value(alloc: Global, answer: &Answer) -> Result<Value, AllocError> {
    let mut map = Map::new(alloc);
    let rows = rows_value(alloc, answer)?;
    put(alloc, &mut map, "rows", rows)?;
    let lines = lines_value(alloc, answer.lines.as_slice())?;
    put(alloc, &mut map, "answer", lines)?;
    put(alloc, &mut map, "yes", Value::Bool(answer.holds))?;
    Ok(Value::Object(map))
}

// The rows.
fn rows_value(alloc: Global, answer: &Answer) -> Result<Value, AllocError> {
    let mut rows = Vec::new(alloc);
    for row in &answer.grid.rows {
        rows.push(row_value(alloc, answer.grid.columns.as_slice(), row.as_slice())?)?;
    }
    Ok(Value::Array(rows))
}

// A row, by the names of the columns.
fn row_value(alloc: Global, columns: &[Column], row: &[Cell]) -> Result<Value, AllocError> {
    let mut map = Map::new(alloc);
    for (column, cell) in columns.iter().zip(row) {
        if column.is_in_data() {
            put(alloc, &mut map, column.name, cell_value(alloc, cell)?)?;
        }
    }
    Ok(Value::Object(map))
}

// A cell.
fn cell_value(alloc: Global, cell: &Cell) -> Result<Value, AllocError> {
    match cell {
        Cell::Nothing => Ok(Value::Null),
        Cell::Number(number) => Ok(Value::from(*number)),
        Cell::Text(text) => Ok(Value::String(String::from_str(alloc, text.as_str())?)),
        Cell::Numbers(numbers) => numbers_value(alloc, numbers.as_slice()),
    }
}

// A list of numbers.
fn numbers_value(alloc: Global, numbers: &[u64]) -> Result<Value, AllocError> {
    let mut list = Vec::new(alloc);
    for number in numbers {
        list.push(Value::from(*number))?;
    }
    Ok(Value::Array(list))
}

// The sentences.
fn lines_value(alloc: Global, lines: &[String]) -> Result<Value, AllocError> {
    let mut list = Vec::new(alloc);
    for line in lines {
        list.push(Value::String(String::from_str(alloc, line.as_str())?))?;
    }
    Ok(Value::Array(list))
}

// Puts a member into an object.
fn put(
    alloc: Global,
    map: &mut Map<String, Value>,
    name: &str,
    value: Value,
) -> Result<(), AllocError> {
    map.insert(String::from_str(alloc, name)?, value)?;
    Ok(())
}
