//! The rows of a sheet: a CSV text whose first record names the keys.

use crate::field::{Kind, Place, Row};
use crate::mistake::Mistakes;
use csv::{Error, ErrorKind, ReaderBuilder, StringRecord};
use std::alloc::{AllocError, Global};

/// The rows of a text, which is the file of this number. A cell in which nothing stands gives its key no value.
pub(crate) fn sheet_rows(
    alloc: Global,
    kind: Kind,
    file: usize,
    text: &str,
    told: &mut Mistakes,
) -> Result<Vec<Row>, AllocError> {
    let mut rows = Vec::new(alloc);
    let mut keys = StringRecord::new(alloc);
    let reader = ReaderBuilder::new()
        .has_headers(false)
        .flexible(true)
        .from_reader(alloc, text.as_bytes());
    for record in reader.into_records() {
        match record {
            Ok(record) if keys.is_empty() => keys = record,
            Ok(record) => add_row(alloc, kind, file, &keys, &record, &mut rows)?,
            Err(error) => tell(file, &error, told)?,
        }
    }
    Ok(rows)
}

/// Adds the row of a record under these keys.
fn add_row(
    alloc: Global,
    kind: Kind,
    file: usize,
    keys: &StringRecord,
    record: &StringRecord,
    rows: &mut Vec<Row>,
) -> Result<(), AllocError> {
    rows.push(sheet_row(alloc, kind, file, keys, record)?)?;
    Ok(())
}

/// The row of a record under these keys.
fn sheet_row(
    alloc: Global,
    kind: Kind,
    file: usize,
    keys: &StringRecord,
    record: &StringRecord,
) -> Result<Row, AllocError> {
    let line = record.position().map_or(1, |position| position.line);
    let place = Place { file, line };
    let mut row = Row::new(alloc, kind, place);
    for column in 0..keys.len() {
        let (Some(key), Some(text)) = (keys.get(column), record.get(column)) else {
            continue;
        };
        let text = text.trim();
        if !text.is_empty() {
            row.push(alloc, key.trim(), String::from_str(alloc, text)?, place)?;
        }
    }
    Ok(row)
}

/// Tells of a record that can't be read.
fn tell(file: usize, error: &Error, told: &mut Mistakes) -> Result<(), AllocError> {
    match error.kind() {
        ErrorKind::OutOfMemory => Err(AllocError),
        ErrorKind::Utf8 { pos, err: _ } => {
            let line = pos.as_ref().map_or(1, |position| position.line);
            told.tell_at(Place { file, line }, "text in UTF-8")
        }
        _ => told.tell_at(
            Place { file, line: 1 },
            "rows of fields with commas between them",
        ),
    }
}
