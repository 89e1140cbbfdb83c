//! The groups of a design, and the shares that they have of links.

use crate::design::{Design, DesignQuota};
use crate::field::{Field, Row};
use crate::mistake::Mistakes;
use crate::values::{A_NAME, A_SIZE, A_TIME};
use field_units::{Size, Time};
use net_units::Name;
use std::alloc::{AllocError, Global};

/// How many groups there may be.
const MOST_GROUPS: usize = 4;

/// A share of the link of a name.
#[derive(Debug, Drop)]
pub(crate) struct Share {
    link: Name,
    group: u8,
    buffer: Size,
    levels: Vec<Time>,
    row: usize,
}

/// The groups that streams have, in the order in which they come.
pub(crate) fn groups_of(
    alloc: Global,
    streams: &[Row],
    told: &mut Mistakes,
) -> Result<Vec<Name>, AllocError> {
    let mut groups = Vec::new(alloc);
    for row in streams {
        if let Some(field) = row.field("group") {
            add_group(field, &mut groups, told)?;
        }
    }
    Ok(groups)
}

/// Adds the group at a field, where it is a new one.
fn add_group(field: &Field, groups: &mut Vec<Name>, told: &mut Mistakes) -> Result<(), AllocError> {
    let Some(name) = Name::new(field.text.as_bytes()) else {
        return told.refuse(field, A_NAME);
    };
    if number_of(groups, &name) > 0 {
        return Ok(());
    }
    if groups.len() >= MOST_GROUPS {
        return told.refuse(field, "one of at most 4 groups");
    }
    groups.push(name)?;
    Ok(())
}

/// The number of a group, from 1, and 0 where it isn't there.
fn number_of(groups: &[Name], name: &Name) -> u8 {
    let mut number: u8 = 0;
    for group in groups {
        number = number.saturating_add(1);
        if group == name {
            return number;
        }
    }
    0
}

/// The number of the group that a stream names, 0 where it names none.
pub(crate) fn group_in(row: &Row, groups: &[Name]) -> u8 {
    match row.text("group") {
        Some(text) => Name::new(text.as_bytes()).map_or(0, |name| number_of(groups, &name)),
        None => 0,
    }
}

/// The share of a row, where it says all that is needed.
pub(crate) fn share_of(
    alloc: Global,
    row: &Row,
    place: usize,
    groups: &[Name],
    told: &mut Mistakes,
) -> Result<Option<Share>, AllocError> {
    judge_needs(row, told)?;
    let group = group_in(row, groups);
    if row.has("group") && group == 0 {
        told.refuse_at(row, "group", "a group that a stream has")?;
    }
    let link = told.name(row, "link")?;
    let buffer = told.size(alloc, row, "buffer")?;
    let levels = told.times(alloc, row, "levels")?;
    let (Some(link), Some(buffer), Some(levels)) = (link, buffer, levels) else {
        return Ok(None);
    };
    Ok(Some(Share {
        link,
        group,
        buffer,
        levels,
        row: place,
    }))
}

/// Tells what every share needs and this row lacks.
fn judge_needs(row: &Row, told: &mut Mistakes) -> Result<(), AllocError> {
    told.need(row, "link", A_NAME)?;
    told.need(row, "group", A_NAME)?;
    told.need(row, "buffer", A_SIZE)?;
    told.need(row, "levels", A_TIME)
}

/// The shares of the link of this name.
pub(crate) fn quotas_of(
    alloc: Global,
    link: &Name,
    shares: &[Share],
) -> Result<Vec<DesignQuota>, AllocError> {
    let mut quotas = Vec::new(alloc);
    for share in shares {
        if share.link == *link {
            quotas.push(DesignQuota {
                group: share.group,
                buffer: share.buffer,
                levels: share.levels.clone()?,
                row: share.row,
            })?;
        }
    }
    Ok(quotas)
}

/// Tells of the shares of links that the design doesn't have.
pub(crate) fn judge_shares(
    design: &Design,
    shares: &[Share],
    told: &mut Mistakes,
) -> Result<(), AllocError> {
    for share in shares {
        let is_there = design.links.iter().any(|link| link.name == share.link);
        if !is_there && let Some(row) = design.rows.get(share.row) {
            told.refuse_at(row, "link", "a link that the design has")?;
        }
    }
    Ok(())
}
