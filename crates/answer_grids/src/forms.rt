//! How answers are written.

pub mod csv_form;
pub mod json_form;
pub mod text_form;

use crate::grid::{Answer, Cell};
use std::alloc::{AllocError, Global};

/// How an answer is written.
#[derive(Clone, Copy, Debug, PartialEq, Eq)]
pub enum Format {
    /// The table with its columns below one another, where the answer shows it, and the sentences.
    Text,
    /// The table as CSV.
    Csv,
    /// The table and the sentences as JSON.
    Json,
}

/// The bytes of an answer in a format.
pub fn bytes_of(alloc: Global, answer: &Answer, format: Format) -> Result<Vec<u8>, AllocError> {
    match format {
        Format::Text => {
            let text = text_form::text_of(alloc, answer)?;
            Vec::from_slice(alloc, text.as_bytes())
        }
        Format::Csv => csv_form::csv_of(alloc, &answer.grid),
        Format::Json => {
            let text = json_form::json_of(alloc, answer)?;
            Vec::from_slice(alloc, text.as_bytes())
        }
    }
}

/// The text of a cell.
pub(crate) fn cell_text(alloc: Global, cell: &Cell) -> Result<String, AllocError> {
    match cell {
        Cell::Nothing => Ok(String::new(alloc)),
        Cell::Number(number) => format!(in alloc; "{number}"),
        Cell::Text(text) => String::from_str(alloc, text.as_str()),
        Cell::Numbers(numbers) => numbers_text(alloc, numbers.as_slice()),
    }
}

// Numbers with spaces between them.
fn numbers_text(alloc: Global, numbers: &[u64]) -> Result<String, AllocError> {
    let mut text = String::new(alloc);
    for number in numbers {
        if !text.is_empty() {
            text.push(' ')?;
        }
        let digits = format!(in alloc; "{number}")?;
        text.push_str(digits.as_str())?;
    }
    Ok(text)
}
