//! Answers: a table of cells, and the sentences below it.
use std::alloc::{AllocError, Global};

/// What stands in a cell.
#[derive(Drop)]
pub enum Cell {
    Nothing,
    Number(u64),
    Text(String),
    Numbers(Vec<u64>),
}

/// At which side of its column a cell stands, in text.
#[derive(Clone, Copy, Debug, PartialEq, Eq)]
pub enum Side {
    Left,
    Right,
}

/// Where a column is shown.
#[derive(Clone, Copy, Debug, PartialEq, Eq)]
pub enum Shown {
    Everywhere,
    /// In text alone.
    Text,
    /// In CSV and JSON alone.
    Data,
}

/// A column.
#[derive(Clone, Copy)]
pub struct Column {
    /// Its name in CSV and JSON.
    pub name: &'static str,
    /// What stands above it in text.
    pub head: &'static str,
    pub side: Side,
    pub shown: Shown,
}

impl Column {
    /// A column of words.
    pub fn of_words(name: &'static str, head: &'static str) -> Column {
        Column {
            name,
            head,
            side: Side::Left,
            shown: Shown::Everywhere,
        }
    }

    /// A column of numbers.
    pub fn of_numbers(name: &'static str, head: &'static str) -> Column {
        Column {
            name,
            head,
            side: Side::Right,
            shown: Shown::Everywhere,
        }
    }

    /// The same, shown in text alone.
    pub fn in_text(self) -> Column {
        Column {
            shown: Shown::Text,
            ..self
        }
    }

    /// The same, shown in CSV and JSON alone.
    pub fn in_data(self) -> Column {
        Column {
            shown: Shown::Data,
            ..self
        }
    }

    /// Whether it is shown in text.
    pub fn is_in_text(&self) -> bool {
        self.shown != Shown::Data
    }

    /// Whether it is shown in CSV and JSON.
    pub fn is_in_data(&self) -> bool {
        self.shown != Shown::Text
    }
}

/// A table.
#[derive(Drop)]
pub struct Grid {
    pub columns: Vec<Column>,
    pub rows: Vec<Vec<Cell>>,
}

/// An answer.
#[derive(Drop)]
pub struct Answer {
    pub grid: Grid,
    /// Whether the table is shown in text.
    pub shows_grid: bool,
    /// The sentences.
    pub lines: Vec<String>,
    /// Whether it is a yes.
    pub holds: bool,
}

impl Cell {
    /// A text.
    pub fn text(alloc: Global, text: &str) -> Result<Cell, AllocError> {
        Ok(Cell::Text(String::from_str(alloc, text)?))
    }

    /// A number, or nothing.
    pub fn number(number: Option<u64>) -> Cell {
        match number {
            Some(number) => Cell::Number(number),
            None => Cell::Nothing,
        }
    }
}
