//! A table as CSV, its columns' names first.
use crate::forms::cell_text;
use crate::grid::{Cell, Column, Grid};
use csv::{Writer, WriterBuilder};
use std::alloc::{AllocError, Global};

/// The CSV of a table.
pub(crate) fn csv_of(alloc: Global, grid: &Grid) -> Result<Vec<u8>, AllocError> {
    let mut page = WriterBuilder::new()
        .flexible(true)
        .from_writer(Vec::new(alloc));
    write_names(&mut page, grid.columns.as_slice())?;
    for row in &grid.rows {
        write_row(alloc, &mut page, grid.columns.as_slice(), row.as_slice())?;
    }
    page.into_inner().ok().ok_or(AllocError)
}

// Writes the names of the columns.
fn write_names(page: &mut Writer<Vec<u8>>, columns: &[Column]) -> Result<(), AllocError> {
    for column in columns {
        if column.is_in_data() {
            write_field(page, column.name)?;
        }
    }
    end_row(page)
}

// Writes a row.
fn write_row(
    alloc: Global,
    page: &mut Writer<Vec<u8>>,
    columns: &[Column],
    row: &[Cell],
) -> Result<(), AllocError> {
    for (column, cell) in columns.iter().zip(row) {
        if column.is_in_data() {
            let text = cell_text(alloc, cell)?;
            write_field(page, text.as_str())?;
        }
    }
    end_row(page)
}

// Writes a field. Writes to memory fail for want of memory alone.
fn write_field(page: &mut Writer<Vec<u8>>, text: &str) -> Result<(), AllocError> {
    page.write_field(text.as_bytes()).ok().ok_or(AllocError)
}

// Ends a row.
fn end_row(page: &mut Writer<Vec<u8>>) -> Result<(), AllocError> {
    let none: [&[u8]; 0] = [];
    page.write_fields(&none).ok().ok_or(AllocError)
}
