//! A table with its columns below one another, and sentences.
use crate::forms::cell_text;
use crate::grid::{Answer, Cell, Column, Grid, Side};
use std::alloc::{AllocError, Global};

/// The text of an answer.
pub(crate) fn text_of(alloc: Global, answer: &Answer) -> Result<String, AllocError> {
    let mut text = String::new(alloc);
    if answer.shows_grid {
        push_grid(alloc, &mut text, &answer.grid)?;
    }
    for line in &answer.lines {
        text.push_str(line.as_str())?;
        text.push('\n')?;
    }
    Ok(text)
}

// Adds a table.
fn push_grid(alloc: Global, text: &mut String, grid: &Grid) -> Result<(), AllocError> {
    let columns = grid.columns.as_slice();
    let mut cells = Vec::new(alloc);
    for row in &grid.rows {
        cells.push(texts_of(alloc, columns, row.as_slice())?)?;
    }
    let heads = heads_of(alloc, columns)?;
    let widths = widths_of(alloc, &heads, &cells)?;
    let sides = sides_of(alloc, columns)?;
    push_row(alloc, text, &sides, &widths, &heads)?;
    for row in &cells {
        push_row(alloc, text, &sides, &widths, row)?;
    }
    Ok(())
}

// The texts of a row, of the columns that are shown.
fn texts_of(alloc: Global, columns: &[Column], row: &[Cell]) -> Result<Vec<String>, AllocError> {
    let mut texts = Vec::new(alloc);
    for (column, cell) in columns.iter().zip(row) {
        if column.is_in_text() {
            texts.push(cell_text(alloc, cell)?)?;
        }
    }
    Ok(texts)
}

// At which sides the cells of the columns stand that are shown.
fn sides_of(alloc: Global, columns: &[Column]) -> Result<Vec<Side>, AllocError> {
    let mut sides = Vec::new(alloc);
    for column in columns {
        if column.is_in_text() {
            sides.push(column.side)?;
        }
    }
    Ok(sides)
}

// What stands above the columns that are shown.
fn heads_of(alloc: Global, columns: &[Column]) -> Result<Vec<String>, AllocError> {
    let mut heads = Vec::new(alloc);
    for column in columns {
        if column.is_in_text() {
            heads.push(String::from_str(alloc, column.head)?)?;
        }
    }
    Ok(heads)
}

// How wide the columns are.
fn widths_of(
    alloc: Global,
    heads: &[String],
    rows: &[Vec<String>],
) -> Result<Vec<usize>, AllocError> {
    let mut widths = Vec::new(alloc);
    for place in 0..heads.len() {
        widths.push(width_at(heads, rows, place))?;
    }
    Ok(widths)
}

// How wide a column is.
fn width_at(heads: &[String], rows: &[Vec<String>], place: usize) -> usize {
    let mut width = length_at(heads, place);
    for row in rows {
        width = width.max(length_at(row.as_slice(), place));
    }
    width
}

// How long a cell is.
fn length_at(row: &[String], place: usize) -> usize {
    match row.get(place) {
        Some(text) => text.len(),
        None => 0,
    }
}

// Adds a row, without spaces at its end.
fn push_row(
    alloc: Global,
    text: &mut String,
    sides: &[Side],
    widths: &[usize],
    row: &[String],
) -> Result<(), AllocError> {
    let mut line = String::new(alloc);
    for place in 0..sides.len() {
        let cell = row.get(place).map_or("", String::as_str);
        let width = widths.get(place).copied().unwrap_or(0);
        if place > 0 {
            line.push_str("  ")?;
        }
        push_cell(&mut line, cell, width, sides[place])?;
    }
    text.push_str(line.as_str().trim_end())?;
    text.push('\n')
}

// Adds a cell of this width.
fn push_cell(line: &mut String, cell: &str, width: usize, side: Side) -> Result<(), AllocError> {
    let spaces = width.saturating_sub(cell.len());
    if side == Side::Right {
        push_spaces(line, spaces)?;
    }
    line.push_str(cell)?;
    if side == Side::Left {
        push_spaces(line, spaces)?;
    }
    Ok(())
}

// Adds so many spaces.
fn push_spaces(line: &mut String, count: usize) -> Result<(), AllocError> {
    for _ in 0..count {
        line.push(' ')?;
    }
    Ok(())
}
