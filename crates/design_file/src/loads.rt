//! What is more than a scenario has.

use crate::plan::rounds_in;
use design_text::{Design, DesignPour, Mistakes};
use field_units::{Scale, Size};
use net_units::limits::{MOST_PACKETS, MOST_ROUNDS};
use std::alloc::{AllocError, Global};

/// Tells of a run of too many ticks.
pub(crate) fn judge_run(
    alloc: Global,
    scale: &Scale,
    design: &Design,
    told: &mut Mistakes,
) -> Result<(), AllocError> {
    let links = design.links.len() as u64;
    let ticks = rounds_in(scale, design).saturating_mul(links.max(1));
    if ticks <= MOST_ROUNDS {
        return Ok(());
    }
    let wanted = format!(in alloc;
        "a shorter one or a longer tick: its ticks times the links come to {ticks}, and at most {MOST_ROUNDS}"
    )?;
    told.refuse_at(&design.network, "run", wanted.as_str())
}

/// Tells of the stream with which more packets are sent, once for each link of their routes, than a scenario has. The routes have so many links.
pub(crate) fn judge_counts(
    alloc: Global,
    design: &Design,
    hops: &[u64],
    told: &mut Mistakes,
) -> Result<(), AllocError> {
    let mut load: u64 = 0;
    for (stream, links) in design.streams.iter().zip(hops) {
        load = load.saturating_add(stream.count.saturating_mul(*links));
        if load > MOST_PACKETS {
            return tell_load(alloc, design, stream.row, load, told);
        }
    }
    for pour in &design.pours {
        load = load.saturating_add(pour.count);
        if load > MOST_PACKETS {
            return tell_load(alloc, design, pour.row, load, told);
        }
    }
    Ok(())
}

/// Tells of the stream with which too much is sent.
fn tell_load(
    alloc: Global,
    design: &Design,
    row: usize,
    load: u64,
    told: &mut Mistakes,
) -> Result<(), AllocError> {
    let wanted = format!(in alloc;
        "fewer: with this stream the counts times the links of their routes come to {load}, and at most {MOST_PACKETS}"
    )?;
    match design.rows.get(row) {
        Some(row) => told.refuse_at(row, "count", wanted.as_str()),
        None => Ok(()),
    }
}

/// Tells of best-effort streams that their link would refuse: one with packets that are too large for it, or one that begins while packets of
/// another one are still planned there.
pub(crate) fn judge_pours(
    alloc: Global,
    scale: &Scale,
    design: &Design,
    told: &mut Mistakes,
) -> Result<(), AllocError> {
    let mut before: usize = 0;
    for pour in &design.pours {
        judge_size(alloc, design, pour, told)?;
        let mut above = design.pours.iter().take(before);
        if let Some(other) = above.find(|other| outlasts(scale, other, pour)) {
            let (name, link) = (other.name, other.link);
            let wanted = format!(in alloc;
                "another link or a later start, since {name} sends over {link} then"
            )?;
            if let Some(row) = design.rows.get(pour.row) {
                told.refuse_at(row, "name", wanted.as_str())?;
            }
        }
        before = before.saturating_add(1);
    }
    Ok(())
}

/// Whether a best-effort stream has packets planned on the link of a later one when that one begins.
fn outlasts(scale: &Scale, pour: &DesignPour, later: &DesignPour) -> bool {
    let (Ok(start), Ok(gap)) = (scale.propagation(pour.start), scale.gap(pour.pace)) else {
        return false;
    };
    let Ok(begin) = scale.propagation(later.start) else {
        return false;
    };
    let gaps = pour.count.saturating_sub(1);
    let last = u64::from(start).saturating_add(gaps.saturating_mul(u64::from(gap)));
    pour.link == later.link && u64::from(begin) <= last
}

/// Tells of packets that are larger than their link carries.
fn judge_size(
    alloc: Global,
    design: &Design,
    pour: &DesignPour,
    told: &mut Mistakes,
) -> Result<(), AllocError> {
    let Some(link) = design.links.iter().find(|link| link.name == pour.link) else {
        return Ok(());
    };
    let largest: Size = link.largest;
    if pour.size <= largest {
        return Ok(());
    }
    let name = link.name;
    let wanted = format!(in alloc; "at most {largest}, the largest packet of {name}")?;
    match design.rows.get(pour.row) {
        Some(row) => told.refuse_at(row, "size", wanted.as_str()),
        None => Ok(()),
    }
}
