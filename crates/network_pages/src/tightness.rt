//! In which order requests are shown: denied ones first, then those with the least to spare.
ghost use Rattle.std.specs.Prelude.{◌≡◌, IfOk, length};
ghost use Rattle.std.specs.List.{range_with_len};
ghost use Rattle.std.specs.List.Sorted.{IsNonDecreasingBy, IsPermutation};
ghost use Rattle.network_pages.specs.Tight.{spare_of, tightness_at, tightness_of};

use network_pictures::{NetworkFacts, Outcome, RequestFacts};
use std::alloc::{AllocError, Global};

/// The places of the requests, the tight ones first; those that are equally tight in the order in which they are opened.
pub fn tight_first(alloc: Global, facts: &NetworkFacts) -> Result<Vec<usize>, AllocError>
    ensures all { IfOk result (λ places. IsPermutation (range_with_len 0 (length facts.now.requests.items)) places.items) }
    ensures first { IfOk result (λ places. IsNonDecreasingBy (tightness_at facts.now.requests.items) places.items) }
{
    let requests = facts.requests.as_slice();
    let mut places = places_of(alloc, requests)?;
    places.sort_by_key(|place: &usize| tightness_at(requests, *place))?;
    Ok(places)
}

// The places of all requests.
fn places_of(alloc: Global, requests: &[RequestFacts]) -> Result<Vec<usize>, AllocError>
    ensures { IfOk result (λ places. places.items ≡ range_with_len 0 (length requests.now)) }
{
    (0..requests.len()).collect(alloc)
}

// How tight the request at a place is: less is tighter.
fn tightness_at(requests: &[RequestFacts], place: usize) -> u128
    ensures { result ≡ tightness_at requests.now place }
{
    match requests.get(place) {
        Some(request) => tightness(request),
        None => 0,
    }
}

fn tightness(request: &RequestFacts) -> u128
    ensures { result ≡ tightness_of request.now }
{
    match request.outcome {
        Outcome::Denied { .. } => 0,
        Outcome::Pending => 1,
        Outcome::Accepted(promised) => {
            2 + u128::from(request.terms.delay.saturating_sub(promised))
        }
    }
}

/// What a request has to spare, in ticks: the delay that it wants less the one that it is promised.
pub(crate) fn spare_of(request: &RequestFacts) -> Option<u64>
    ensures { result ≡ spare_of request.now }
{
    match request.outcome {
        Outcome::Accepted(promised) => Some(request.terms.delay.saturating_sub(promised)),
        _ => None,
    }
}

/// How many requests are accepted.
pub(crate) fn accepted_in(facts: &NetworkFacts) -> u64 {
    let mut count: u64 = 0;
    for request in &facts.requests {
        if matches!(request.outcome, Outcome::Accepted(_)) {
            count = count.saturating_add(1);
        }
    }
    count
}
