//! Rows that stand for several links or streams, and what rows take from others.
//!
//! A row takes what it lacks from its class, and then from the defaults. `copies = 40` makes forty of it, in whose texts `{}` is the number of
//! the copy, from 1, and `{+1}` the next one; a name without `{}` has the number behind it. `both = true` makes a link of the other direction too.

use crate::field::{Kind, Row};
use crate::mistake::Mistakes;
use crate::rows::{Class, Rows};
use net_units::limits::MOST_REQUESTS;
use std::alloc::{AllocError, Global};

/// The rows of a design, one for each link, each stream and each share of a link.
#[derive(Drop)]
pub(crate) struct Spread {
    pub(crate) network: Row,
    pub(crate) links: Vec<Row>,
    pub(crate) streams: Vec<Row>,
    pub(crate) quotas: Vec<Row>,
}

impl Spread {
    /// The rows for which these stand.
    pub(crate) fn new(
        alloc: Global,
        rows: Rows,
        told: &mut Mistakes,
    ) -> Result<Spread, AllocError> {
        Ok(Spread {
            links: spread_links(alloc, &rows, told)?,
            streams: spread_streams(alloc, &rows, told)?,
            quotas: spread_quotas(alloc, &rows, told)?,
            network: rows.network,
        })
    }
}

/// A row for each link.
fn spread_links(alloc: Global, rows: &Rows, told: &mut Mistakes) -> Result<Vec<Row>, AllocError> {
    let mut links = Vec::new(alloc);
    for row in &rows.links {
        let mut row = row.copy(alloc)?;
        row.complete(alloc, &rows.link_defaults)?;
        add_copies(alloc, &row, &mut links, told)?;
    }
    Ok(links)
}

/// A row for each stream.
fn spread_streams(alloc: Global, rows: &Rows, told: &mut Mistakes) -> Result<Vec<Row>, AllocError> {
    let mut streams = Vec::new(alloc);
    for row in &rows.streams {
        let mut row = row.copy(alloc)?;
        if let Some(class) = class_of(&row, &rows.classes, told)? {
            row.complete(alloc, class)?;
        }
        row.complete(alloc, &rows.stream_defaults)?;
        add_copies(alloc, &row, &mut streams, told)?;
    }
    Ok(streams)
}

/// A row for each share of a link.
fn spread_quotas(alloc: Global, rows: &Rows, told: &mut Mistakes) -> Result<Vec<Row>, AllocError> {
    let mut quotas = Vec::new(alloc);
    for row in &rows.quotas {
        add_copies(alloc, row, &mut quotas, told)?;
    }
    Ok(quotas)
}

/// The class that a row names.
fn class_of<'a>(
    row: &Row,
    classes: &'a [Class],
    told: &mut Mistakes,
) -> Result<Option<&'a Row>, AllocError> {
    let Some(field) = row.field("class") else {
        return Ok(None);
    };
    let found = classes
        .iter()
        .find(|class| class.name.as_str() == field.text.as_str());
    match found {
        Some(class) => Ok(Some(&class.row)),
        None => {
            told.refuse(field, "a class that the design has")?;
            Ok(None)
        }
    }
}

/// Adds the copies of a row, or the row itself where it has none.
fn add_copies(
    alloc: Global,
    row: &Row,
    rows: &mut Vec<Row>,
    told: &mut Mistakes,
) -> Result<(), AllocError> {
    if !row.has("copies") {
        return add_both(alloc, row.copy(alloc)?, rows, told);
    }
    let most = MOST_REQUESTS as u64;
    let count = told.number(alloc, row, "copies", most)?.unwrap_or(0);
    for number in 0..count {
        let copy = row.numbered(alloc, number.saturating_add(1))?;
        add_both(alloc, copy, rows, told)?;
    }
    Ok(())
}

/// Adds a row, and where it says so that of the other direction.
fn add_both(
    alloc: Global,
    row: Row,
    rows: &mut Vec<Row>,
    told: &mut Mistakes,
) -> Result<(), AllocError> {
    let is_both = row.kind == Kind::Link && told.flag(&row, "both")?;
    if is_both {
        let back = row.reversed(alloc)?;
        rows.push(row)?;
        rows.push(back)?;
    } else {
        rows.push(row)?;
    }
    Ok(())
}
