//! All that keeps a design from a plan.

use crate::links::{link_entries, shape_of};
use crate::loads::{judge_counts, judge_pours, judge_run};
use crate::quotas::quota_of;
use crate::refusal::{Key, Refusal, Wrong};
use crate::terms::terms_of;
use crate::times::op_time;
use crate::ways::route_of;
use call_script::Quotas;
use design_text::{Design, DesignLink, DesignPour, DesignStream, Mistakes};
use field_units::{Scale, Time};
use link_steps::LinkShape;
use net_units::LinkNo;
use std::alloc::{AllocError, Global};
use traffic_contract::Test;

/// Every number of a link, a share or a stream that has none in the scenario, every route that is none, and all that is more than a scenario has.
pub(crate) fn misfits(
    alloc: Global,
    scale: &Scale,
    design: &Design,
) -> Result<Mistakes, AllocError> {
    let mut told = Mistakes::new(alloc);
    judge_run(alloc, scale, design, &mut told)?;
    judge_links(alloc, scale, design, &mut told)?;
    judge_streams(alloc, scale, design, &mut told)?;
    judge_pours(alloc, scale, design, &mut told)?;
    if told.is_empty() {
        judge_routes(alloc, scale, design, &mut told)?;
    }
    Ok(told)
}

/// Tells of the links that have no place in a plan, and of their shares.
fn judge_links(
    alloc: Global,
    scale: &Scale,
    design: &Design,
    told: &mut Mistakes,
) -> Result<(), AllocError> {
    for link in &design.links {
        match shape_at(alloc, scale, link) {
            Ok(shape) => judge_quotas(alloc, scale, design, link, &shape, told)?,
            Err(refusal) => tell(alloc, design, link.row, &refusal, told)?,
        }
    }
    Ok(())
}

/// A link's numbers, as those of the first link.
fn shape_at(alloc: Global, scale: &Scale, link: &DesignLink) -> Result<LinkShape, Refusal> {
    let number = LinkNo::new(0).unwrap();
    shape_of(alloc, scale, Test::Least, number, link)
}

/// Tells of the shares of a link that have no place in a plan, or for which those above leave no room.
fn judge_quotas(
    alloc: Global,
    scale: &Scale,
    design: &Design,
    link: &DesignLink,
    shape: &LinkShape,
    told: &mut Mistakes,
) -> Result<(), AllocError> {
    let mut quotas = Quotas::none(alloc);
    for share in &link.quotas {
        match quota_of(alloc, scale, &shape.bounds, share) {
            Ok(quota) if quotas.fit_with(shape, &quota) => {
                if quotas.push(quota).is_err() {
                    return Err(AllocError);
                }
            }
            Ok(_) => tell(
                alloc,
                design,
                share.row,
                &Refusal::Wrong(Wrong::Shares),
                told,
            )?,
            Err(refusal) => tell(alloc, design, share.row, &refusal, told)?,
        }
    }
    Ok(())
}

/// Tells of the streams that have no place in a plan.
fn judge_streams(
    alloc: Global,
    scale: &Scale,
    design: &Design,
    told: &mut Mistakes,
) -> Result<(), AllocError> {
    for stream in &design.streams {
        if let Some(refusal) = stream_refusal(scale, stream) {
            tell(alloc, design, stream.row, &refusal, told)?;
        }
        if let Some(refusal) = span_refusal(scale, stream) {
            tell(alloc, design, stream.row, &refusal, told)?;
        }
    }
    for pour in &design.pours {
        if let Some(refusal) = pour_refusal(scale, pour) {
            tell(alloc, design, pour.row, &refusal, told)?;
        }
    }
    Ok(())
}

/// Tells of the streams to whose ends no route leads, and of those that send too much over theirs.
fn judge_routes(
    alloc: Global,
    scale: &Scale,
    design: &Design,
    told: &mut Mistakes,
) -> Result<(), AllocError> {
    let Ok(links) = link_entries(alloc, scale, Test::Least, &design.links) else {
        return Ok(());
    };
    let mut hops: Vec<u64> = Vec::new(alloc);
    for stream in &design.streams {
        match route_of(alloc, &links, &stream.way) {
            Ok(route) => hops.push(u64::from(route.len()))?,
            Err(refusal) => {
                hops.push(0)?;
                tell(alloc, design, stream.row, &refusal, told)?;
            }
        }
    }
    judge_counts(alloc, design, &hops, told)
}

/// Tells of a refusal in a row of the design.
fn tell(
    alloc: Global,
    design: &Design,
    row: usize,
    refusal: &Refusal,
    told: &mut Mistakes,
) -> Result<(), AllocError> {
    match design.rows.get(row) {
        Some(row) => refusal.tell(alloc, row, told),
        None => Ok(()),
    }
}

/// Why a stream has no place in a plan, whatever its route.
fn stream_refusal(scale: &Scale, stream: &DesignStream) -> Option<Refusal> {
    if let Err(refusal) = terms_of(scale, stream) {
        return Some(refusal);
    }
    match stream.count {
        0 => None,
        _ => pace_refusal(scale, stream.pace),
    }
}

/// Why packets can't be sent at this gap.
fn pace_refusal(scale: &Scale, pace: Time) -> Option<Refusal> {
    match scale.gap(pace) {
        Ok(_) => None,
        Err(misfit) => Some(Refusal::Misfit {
            key: Key::Every,
            misfit,
        }),
    }
}

/// Why a stream can't begin and end when it is to.
fn span_refusal(scale: &Scale, stream: &DesignStream) -> Option<Refusal> {
    let start = match op_time(scale, stream.start, Key::Start, stream.row) {
        Ok(time) => time.tick,
        Err(refusal) => return Some(refusal),
    };
    match op_time(scale, stream.end?, Key::End, stream.row) {
        Ok(time) if time.tick > start => None,
        Ok(_) => Some(Refusal::Wrong(Wrong::Instant)),
        Err(refusal) => Some(refusal),
    }
}

/// Why a best-effort stream has no place in a plan.
fn pour_refusal(scale: &Scale, pour: &DesignPour) -> Option<Refusal> {
    if let Err(misfit) = scale.size(pour.size) {
        return Some(Refusal::Misfit {
            key: Key::Size,
            misfit,
        });
    }
    if let Err(refusal) = op_time(scale, pour.start, Key::Start, pour.row) {
        return Some(refusal);
    }
    pace_refusal(scale, pour.pace)
}
