//! Which link is tight for a request that is denied.

use answer_tables::{HopRow, hop_rows};
use hop_reservation::Route;
use net_units::{LinkNo, OutOfMemory};
use plan_answers::Trial;
use setup_protocol::{Deny, Verdict};
use std::alloc::Global;

/// The link that refuses the request of a number in a trial, or, where the destination does, the first of those on its route that offer the
/// largest bound; None where it isn't denied.
pub(crate) fn tight_of(
    alloc: Global,
    trial: &Trial,
    number: usize,
    verdict: &Option<Verdict>,
) -> Result<Option<LinkNo>, OutOfMemory> {
    match verdict {
        Some(Verdict::Denied(Deny::Hop { hop, .. })) => Ok(link_at(trial, number, *hop)),
        Some(Verdict::Denied(Deny::End(_))) => largest_offer(alloc, trial, number, verdict),
        _ => Ok(None),
    }
}

// The link of a request at a place of its route, from 1.
fn link_at(trial: &Trial, number: usize, place: u8) -> Option<LinkNo> {
    let entry = trial.plan.requests().get(number)?;
    link_on(&entry.request.route, place)
}

fn link_on(route: &Route, place: u8) -> Option<LinkNo> {
    if 1 <= place && place <= route.len() {
        Some(route.hop(place).link)
    } else {
        None
    }
}

// The first link of a request that offers the largest bound.
fn largest_offer(
    alloc: Global,
    trial: &Trial,
    number: usize,
    verdict: &Option<Verdict>,
) -> Result<Option<LinkNo>, OutOfMemory> {
    if number >= trial.plan.requests().len() {
        return Ok(None);
    }
    let entry = &trial.plan.requests()[number];
    let offers = trial.offers(alloc, number)?;
    let hops = hop_rows(alloc, entry, offers.as_slice(), verdict)?;
    Ok(largest_of(hops.as_slice()))
}

// The first link that offers the largest bound.
fn largest_of(hops: &[HopRow]) -> Option<LinkNo> {
    let mut largest: u64 = 0;
    let mut link = None;
    for hop in hops {
        if let Some(offer) = &hop.offer {
            if offer.bound > largest {
                largest = offer.bound;
                link = Some(hop.link);
            }
        }
    }
    link
}
