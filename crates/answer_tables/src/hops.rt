//! What each hop of a request offers and gives.
use call_script::RequestEntry;
use hop_reservation::Hop;
use net_units::{Level, LinkNo, OutOfMemory};
use setup_protocol::Verdict;
use std::alloc::Global;

/// What a hop has offered.
#[derive(Clone, Copy, Debug)]
pub struct Offer {
    /// The level.
    pub level: Level,
    /// Its bound on the delay at this hop, in ticks.
    pub bound: u64,
    /// The sum of the bounds that were offered up to here and of the propagations, in ticks.
    pub sum: u64,
}

/// A hop of a request.
#[derive(Clone, Copy, Debug)]
pub struct HopRow {
    /// The link.
    pub link: LinkNo,
    /// Its propagation, in ticks.
    pub prop: u64,
    /// What it offers: None where it refuses, or where a hop before it does.
    pub offer: Option<Offer>,
    /// The level that the request gets there: None where it isn't accepted.
    pub gets: Option<Level>,
}

/// The hops of a request to which these levels were offered, from the first on, and which has come to this verdict.
pub fn hop_rows(
    alloc: Global,
    entry: &RequestEntry,
    offers: &[Level],
    verdict: &Option<Verdict>,
) -> Result<Vec<HopRow>, OutOfMemory> {
    let route = &entry.request.route;
    let mut rows = Vec::new(alloc);
    let mut sum: u64 = 0;
    for place in 1..=route.len() {
        let hop = route.hop(place);
        let offer = offer_at(&hop, sum, offers.get(usize::from(place) - 1));
        if let Some(offer) = &offer {
            sum = offer.sum;
        }
        rows.push(HopRow {
            link: hop.link,
            prop: u64::from(hop.prop),
            offer,
            gets: level_at(verdict, place),
        })?;
    }
    Ok(rows)
}

// What a hop offers after these ticks.
fn offer_at(hop: &Hop, before: u64, level: Option<&Level>) -> Option<Offer> {
    let level = *level?;
    if level.get() > hop.bounds.len() {
        return None;
    }
    let bound = u64::from(hop.bounds.at(level));
    let sum = before
        .saturating_add(bound)
        .saturating_add(u64::from(hop.prop));
    Some(Offer { level, bound, sum })
}

// The level that an accepted request gets at a place, from 1.
fn level_at(verdict: &Option<Verdict>, place: u8) -> Option<Level> {
    match verdict {
        Some(Verdict::Accepted { levels, .. }) if 1 <= place && place <= levels.len() => Some(
            levels.at(place),
        ),
        _ => None,
    }
}
