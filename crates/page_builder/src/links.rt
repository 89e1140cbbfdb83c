//! The facts of a link.
ghost use Rattle.std.specs.Prelude.{◌<◌, length};

use crate::fills::{fill_facts, shares_of};
use crate::network::place_of;
use call_script::Plan;
use network_pictures::{Denial, LinkFacts, Outcome, RequestFacts};
use std::alloc::{AllocError, Global};

/// The facts of the link at a place, which these requests cross.
pub(crate) fn link_facts(
    alloc: Global,
    plan: &Plan,
    nodes: &[String],
    requests: &[RequestFacts],
    place: usize,
) -> Result<LinkFacts, AllocError>
    requires inside { place < length plan.now.links }
{
    let entry = &plan.links()[place];
    Ok(LinkFacts {
        name: String::from_str(alloc, entry.name.as_str())?,
        from: place_of(nodes, entry.from.as_str()).unwrap_or(0),
        to: place_of(nodes, entry.to.as_str()).unwrap_or(0),
        rate: u64::from(entry.shape.rate),
        cap: u64::from(entry.shape.cap),
        prop: u64::from(entry.shape.prop),
        fill: fill_facts(alloc, plan, requests, place, None)?,
        shares: shares_of(alloc, plan, requests, place)?,
        refuses: refused_at(requests, place),
        written: None,
    })
}

// How many requests a link refuses.
fn refused_at(requests: &[RequestFacts], place: usize) -> u64 {
    let mut count: u64 = 0;
    for request in requests {
        if request.tight == Some(place) && is_refused_by_hop(request) {
            count = count.saturating_add(1);
        }
    }
    count
}

// Whether a hop refuses a request.
fn is_refused_by_hop(request: &RequestFacts) -> bool {
    match request.outcome {
        Outcome::Denied { why, .. } => !matches!(why, Denial::Delay { .. } | Denial::Jitter { .. }),
        _ => false,
    }
}
