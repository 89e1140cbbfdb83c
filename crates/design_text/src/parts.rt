//! The parts of a design, out of its rows.

use crate::design::Design;
use crate::field::Row;
use crate::keys::BEST_EFFORT;
use crate::links::link_of;
use crate::mistake::Mistakes;
use crate::network::{is_whole_test, scale_of};
use crate::pours::pour_of;
use crate::quotas::{Share, groups_of, judge_shares, share_of};
use crate::spread::Spread;
use crate::streams::stream_of;
use field_units::Time;
use std::alloc::{AllocError, Global};

/// The design of these rows, without the links, shares and streams of which something is told, and whether all links are there.
pub(crate) fn design_of(
    alloc: Global,
    rows: Spread,
    told: &mut Mistakes,
) -> Result<(Design, bool), AllocError> {
    let mut design = empty(alloc, &rows, told)?;
    let shares = add_shares(alloc, &mut design, rows.quotas, told)?;
    let are_all = add_links(alloc, &mut design, rows.links, &shares, told)?;
    if are_all {
        judge_shares(&design, &shares, told)?;
    }
    add_streams(alloc, &mut design, rows.streams, are_all, told)?;
    design
        .streams
        .sort_by_key(|stream| (stream.group, stream.start))?;
    design.pours.sort_by_key(|pour| pour.start)?;
    design.network = rows.network;
    Ok((design, are_all))
}

/// The design with no links and no streams.
fn empty(alloc: Global, rows: &Spread, told: &mut Mistakes) -> Result<Design, AllocError> {
    let scale = scale_of(alloc, &rows.network, told)?;
    let run = told.time(alloc, &rows.network, "run")?;
    let is_whole_test = is_whole_test(&rows.network, told)?;
    let groups = groups_of(alloc, &rows.streams, told)?;
    Ok(Design {
        scale,
        run: run.unwrap_or(Time { picoseconds: 0 }),
        is_whole_test,
        groups,
        links: Vec::new(alloc),
        streams: Vec::new(alloc),
        pours: Vec::new(alloc),
        rows: Vec::new(alloc),
        network: Row::new(alloc, rows.network.kind, rows.network.place),
        files: Vec::new(alloc),
    })
}

/// Adds the rows of all shares, and gives the shares that are whole.
fn add_shares(
    alloc: Global,
    design: &mut Design,
    rows: Vec<Row>,
    told: &mut Mistakes,
) -> Result<Vec<Share>, AllocError> {
    let mut shares = Vec::new(alloc);
    for row in rows {
        if let Some(share) = share_of(alloc, &row, design.rows.len(), &design.groups, told)? {
            shares.push(share)?;
        }
        design.rows.push(row)?;
    }
    Ok(shares)
}

/// Adds the links that are whole, and the rows of all; whether all are whole.
fn add_links(
    alloc: Global,
    design: &mut Design,
    rows: Vec<Row>,
    shares: &[Share],
    told: &mut Mistakes,
) -> Result<bool, AllocError> {
    let mut are_all = !rows.is_empty();
    for row in rows {
        match link_of(alloc, &row, design.rows.len(), shares, told)? {
            Some(link) => design.links.push(link)?,
            None => are_all = false,
        }
        design.rows.push(row)?;
    }
    Ok(are_all)
}

/// Adds the streams that are whole, and the rows of all.
fn add_streams(
    alloc: Global,
    design: &mut Design,
    rows: Vec<Row>,
    are_all: bool,
    told: &mut Mistakes,
) -> Result<(), AllocError> {
    for row in rows {
        add_stream(alloc, design, &row, are_all, told)?;
        design.rows.push(row)?;
    }
    Ok(())
}

/// Adds the stream of a row, which asks for a channel or is a best-effort one.
fn add_stream(
    alloc: Global,
    design: &mut Design,
    row: &Row,
    are_all: bool,
    told: &mut Mistakes,
) -> Result<(), AllocError> {
    let place = design.rows.len();
    told.judge_apart(alloc, row)?;
    if told.flag(row, BEST_EFFORT)? {
        let links = if are_all {
            Some(design.links.as_slice())
        } else {
            None
        };
        if let Some(pour) = pour_of(alloc, row, place, links, told)? {
            design.pours.push(pour)?;
        }
    } else if let Some(stream) = stream_of(alloc, row, place, &design.groups, told)? {
        design.streams.push(stream)?;
    }
    Ok(())
}
