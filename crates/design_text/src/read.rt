//! Reading a design.

use crate::agreement::judge_design;
use crate::design::Design;
use crate::field::{Kind, Row};
use crate::keys::{is_known, keys_of, nearest};
use crate::mistake::{Mistake, Mistakes};
use crate::parts::design_of;
use crate::rows::{Rows, rows_of};
use crate::sheets::sheet_rows;
use crate::spread::Spread;
use std::alloc::{AllocError, AllocFailed, Global};

/// A file, by its name and its text.
#[derive(Clone, Copy, Debug)]
pub struct File<'a> {
    pub name: &'a str,
    pub text: &'a str,
}

/// Why a file is no design.
#[derive(Debug, Drop)]
pub enum BadDesign {
    /// Out of memory.
    Memory,
    /// All that is wrong with it, by file and line.
    Mistakes(Vec<Mistake>),
}

impl From<AllocError> for BadDesign {
    fn from(_refused: AllocError) -> BadDesign {
        BadDesign::Memory
    }
}

impl<T: Drop> From<AllocFailed<T>> for BadDesign {
    fn from(_refused: AllocFailed<T>) -> BadDesign {
        BadDesign::Memory
    }
}

/// The design that a file says, with its sheets among these, or all mistakes.
pub fn read_design(alloc: Global, design: &File, sheets: &[File]) -> Result<Design, BadDesign> {
    let files = names_of(alloc, design, sheets)?;
    let mut told = Mistakes::new(alloc);
    let Some(mut rows) = rows_of(alloc, design.text, &mut told)? else {
        return Err(BadDesign::Mistakes(told.into_list(&files)?));
    };
    add_sheets(alloc, &mut rows, sheets, &mut told)?;
    judge_keys(alloc, &rows, &mut told)?;
    let rows = Spread::new(alloc, rows, &mut told)?;
    let (mut made, has_all_links) = design_of(alloc, rows, &mut told)?;
    judge_design(alloc, &made, has_all_links, &files, &mut told)?;
    if !told.is_empty() {
        return Err(BadDesign::Mistakes(told.into_list(&files)?));
    }
    made.files = files;
    Ok(made)
}

/// The names of the files, the design's first.
fn names_of(alloc: Global, design: &File, sheets: &[File]) -> Result<Vec<String>, AllocError> {
    let mut names = Vec::new(alloc);
    names.push(String::from_str(alloc, design.name)?)?;
    for sheet in sheets {
        names.push(String::from_str(alloc, sheet.name)?)?;
    }
    Ok(names)
}

/// Adds the rows of the sheets that the design names.
fn add_sheets(
    alloc: Global,
    rows: &mut Rows,
    sheets: &[File],
    told: &mut Mistakes,
) -> Result<(), AllocError> {
    if let Some(mut links) = sheet_at(alloc, &rows.network, "links", Kind::Link, sheets, told)? {
        rows.links.append(&mut links)?;
    }
    if let Some(mut streams) = sheet_at(
        alloc,
        &rows.network,
        "streams",
        Kind::Stream,
        sheets,
        told,
    )? {
        rows.streams.append(&mut streams)?;
    }
    if let Some(mut quotas) = sheet_at(alloc, &rows.network, "quotas", Kind::Quota, sheets, told)? {
        rows.quotas.append(&mut quotas)?;
    }
    Ok(())
}

/// The rows of the sheet that a key names.
fn sheet_at(
    alloc: Global,
    network: &Row,
    key: &str,
    kind: Kind,
    sheets: &[File],
    told: &mut Mistakes,
) -> Result<Option<Vec<Row>>, AllocError> {
    let Some(field) = network.field(key) else {
        return Ok(None);
    };
    let mut file: usize = 0;
    for sheet in sheets {
        file = file.saturating_add(1);
        if sheet.name == field.text.as_str() {
            return Ok(Some(sheet_rows(alloc, kind, file, sheet.text, told)?));
        }
    }
    told.refuse(field, "the name of a sheet that is there")?;
    Ok(None)
}

/// Tells of the keys that aren't known.
fn judge_keys(alloc: Global, rows: &Rows, told: &mut Mistakes) -> Result<(), AllocError> {
    judge_row_keys(alloc, &rows.network, told)?;
    judge_row_keys(alloc, &rows.link_defaults, told)?;
    judge_row_keys(alloc, &rows.stream_defaults, told)?;
    for class in &rows.classes {
        judge_row_keys(alloc, &class.row, told)?;
    }
    for row in &rows.links {
        judge_row_keys(alloc, row, told)?;
    }
    for row in &rows.streams {
        judge_row_keys(alloc, row, told)?;
    }
    for row in &rows.quotas {
        judge_row_keys(alloc, row, told)?;
    }
    Ok(())
}

/// Tells of the keys of a row that aren't known.
fn judge_row_keys(alloc: Global, row: &Row, told: &mut Mistakes) -> Result<(), AllocError> {
    let keys = keys_of(row.kind);
    for field in &row.fields {
        let key = field.key.as_str();
        if !is_known(keys, key) {
            let wanted = match nearest(alloc, keys, key)? {
                Some(meant) => format!(in alloc; "no such key; did you mean {meant}?")?,
                None => format!(in alloc;
                    "no such key; there are {}",
                    keys.join(alloc, ", ")?.as_str()
                )?,
            };
            told.refuse(field, wanted.as_str())?;
        }
    }
    Ok(())
}
