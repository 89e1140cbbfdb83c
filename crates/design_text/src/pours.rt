//! The best-effort stream that a row says.

use crate::design::{DesignLink, DesignPour};
use crate::field::Row;
use crate::keys::BEST_EFFORT;
use crate::mistake::Mistakes;
use crate::values::{A_COUNT, A_NAME, A_SIZE, A_TIME};
use field_units::Time;
use net_units::Name;
use net_units::limits::MOST_PACKETS;
use std::alloc::{AllocError, Global};

/// The best-effort stream of a row, where it says all that is needed. Without the links nothing is told of where it goes.
pub(crate) fn pour_of(
    alloc: Global,
    row: &Row,
    place: usize,
    links: Option<&[DesignLink]>,
    told: &mut Mistakes,
) -> Result<Option<DesignPour>, AllocError> {
    judge_needs(row, told)?;
    let name = told.name(row, "name")?;
    let pace = told.time(alloc, row, "every")?;
    let size = told.packet_size(alloc, row)?;
    let count = told.number(alloc, row, "count", MOST_PACKETS)?;
    let start = told.time(alloc, row, "start")?;
    let link = link_of_pour(alloc, row, links, told)?;
    let (Some(name), Some(pace), Some(size)) = (name, pace, size) else {
        return Ok(None);
    };
    let (Some(link), Some(count)) = (link, count) else {
        return Ok(None);
    };
    Ok(Some(DesignPour {
        name,
        link,
        pace,
        count,
        size,
        start: start.unwrap_or(Time { picoseconds: 0 }),
        row: place,
    }))
}

/// Tells what every best-effort stream needs and this row lacks.
fn judge_needs(row: &Row, told: &mut Mistakes) -> Result<(), AllocError> {
    told.need(row, "name", A_NAME)?;
    told.need(row, "every", A_TIME)?;
    told.need(row, "size", A_SIZE)?;
    told.need(row, "count", A_COUNT)
}

/// The name of the link over which a best-effort stream goes: the one at `link`, or the one from the node at `from` to that at `to`.
fn link_of_pour(
    alloc: Global,
    row: &Row,
    links: Option<&[DesignLink]>,
    told: &mut Mistakes,
) -> Result<Option<Name>, AllocError> {
    if !row.has("from") && !row.has("to") {
        told.need(
            row,
            "link",
            "the name of a link, or from and to in its place",
        )?;
        let name = told.name(row, "link")?;
        return one_named(alloc, row, name, links, told);
    }
    told.need(row, "from", A_NAME)?;
    told.need(row, "to", A_NAME)?;
    let from = told.name(row, "from")?;
    let to = told.name(row, "to")?;
    match (from, to, links) {
        (Some(from), Some(to), Some(links)) => one_between(alloc, row, &from, &to, links, told),
        _ => Ok(None),
    }
}

/// The link of this name, where it takes best-effort packets.
fn one_named(
    alloc: Global,
    row: &Row,
    name: Option<Name>,
    links: Option<&[DesignLink]>,
    told: &mut Mistakes,
) -> Result<Option<Name>, AllocError> {
    let (Some(name), Some(links)) = (name, links) else {
        return Ok(None);
    };
    match links.iter().find(|link| link.name == name) {
        Some(link) => {
            judge_best(alloc, row, link, told)?;
            Ok(Some(name))
        }
        None => {
            told.refuse_at(row, "link", "a link that the design has")?;
            Ok(None)
        }
    }
}

/// The one link from a node to another, where it takes best-effort packets.
fn one_between(
    alloc: Global,
    row: &Row,
    from: &Name,
    to: &Name,
    links: &[DesignLink],
    told: &mut Mistakes,
) -> Result<Option<Name>, AllocError> {
    let mut between = links
        .iter()
        .filter(|link| link.from == *from && link.to == *to);
    let Some(link) = between.next() else {
        let wanted = format!(in alloc;
            "a node to which a link leads from {from}, since a best-effort stream goes over one link"
        )?;
        told.refuse_at(row, "to", wanted.as_str())?;
        return Ok(None);
    };
    if between.next().is_some() {
        let wanted = format!(in alloc;
            "link in place of from and to, since several lead from {from} to {to}"
        )?;
        told.refuse_at(row, "to", wanted.as_str())?;
        return Ok(None);
    }
    judge_best(alloc, row, link, told)?;
    Ok(Some(link.name))
}

/// Tells of a link that takes no best-effort packets.
fn judge_best(
    alloc: Global,
    row: &Row,
    link: &DesignLink,
    told: &mut Mistakes,
) -> Result<(), AllocError> {
    if link.best > 0 {
        return Ok(());
    }
    let name = link.name;
    let wanted = format!(in alloc;
        "a link where best-effort packets may wait; give {name} a best of at least 1"
    )?;
    told.refuse_at(row, BEST_EFFORT, wanted.as_str())
}
