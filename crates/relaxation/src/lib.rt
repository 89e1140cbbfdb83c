//! The destination's tests of a request, and the levels that its hops are allotted.
//!
//! A channel is established in one round trip (after the Tenet suite, Banerjea, Ferrari et al. 1996). After the last hop's
//! offer the destination tests what was offered, and then each hop gets its level on the way back. Nothing here takes
//! memory. Times are in ticks.
#![tactic(auto)]

ghost use Rattle.std.specs.Prelude.{◌≡◌, ◌+◌, ◌^◌, ◌<◌, ◌≤◌, Some, None, IsTrue, MatchResult, OnOk, OnErr, length, map};
ghost use Rattle.net_units.specs.Allotted.{levels_of};
ghost use Rattle.net_units.specs.Numbers.{level_number};
ghost use Rattle.net_units.specs.LevelBounds.{are_bounds, bound_at};
ghost use Rattle.hop_reservation.specs.Offers.{delay_over, AreLevels, IsLevelOf};
ghost use Rattle.relaxation.specs.Allotment.{allotted, allotment, denial_of, bound_at_end, relaxed, capped, IsWithin};
ghost use Rattle.relaxation.specs.Laws.{AreWithinReach, HaveBounds, KeepBounds};

pub mod laws;

use hop_reservation::{Itinerary, Offer};
use net_units::limits::MOST_HOPS;
use net_units::{Level, Levels};

/// Why the destination denies a request.
#[derive(Clone, Copy, Debug, PartialEq, Eq)]
pub enum EndDenial {
    /// The delay that the hops have offered is over the request's bound.
    Delay {
        /// The sum of the offered bounds and the propagations, in ticks.
        sum: u64,
        /// The request's bound, in ticks.
        bound: u64,
    },
    /// The bound that the last hop has offered is over the request's jitter bound.
    Jitter {
        /// The last hop's bound, in ticks.
        last: u64,
        /// The request's jitter bound, in ticks.
        bound: u64,
    },
}

/// Puts the levels of all hops, in route order, in place of those in `out`: for a request with this delay bound and, under
/// delay-jitter control, this jitter bound, both in ticks. Where the destination denies the request, `out` stays as it
/// was.
///
/// Each level is one of its hop's, from the offered one to the hop's reach, and the levels keep both bounds (`reach`,
/// `bounds`).
pub fn allot(
    it: &Itinerary,
    delay: u64,
    jitter: Option<u64>,
    out: &mut Levels,
) -> Result<(), EndDenial>
    requires { length it.now.levels ≡ length it.now.route }
    ensures denial { MatchResult result
        (λ _. denial_of it.now.route it.now.levels delay jitter ≡ None)
        (λ denial. denial_of it.now.route it.now.levels delay jitter ≡ Some denial) }
    ensures levels { OnOk result (levels_of out.new ≡ allotted it.now.route it.now.levels delay jitter) }
    ensures reach { OnOk result (AreWithinReach delay it.now.route it.now.levels (levels_of out.new)) }
    ensures bounds { OnOk result (KeepBounds it.now.route (levels_of out.new) delay jitter) }
    ensures unchanged { OnErr result (out.new ≡ out.old) }
{
    if let Some(denial) = denial(it, delay, jitter) {
        return Err(denial);
    }
    share_out(it, delay - it.delay_sum(), jitter, out);
    Ok(())
}

// Why the destination denies the offers, if it does.
fn denial(it: &Itinerary, delay: u64, jitter: Option<u64>) -> Option<EndDenial>
    requires { length it.now.levels ≡ length it.now.route }
    ensures { result ≡ denial_of it.now.route it.now.levels delay jitter }
{
    let sum = it.delay_sum();
    if sum > delay {
        return Some(EndDenial::Delay { sum, bound: delay });
    }
    let last = last_offered(it);
    match jitter {
        Some(bound) if last > bound => Some(EndDenial::Jitter { last, bound }),
        _ => None,
    }
}

// The bound that the last hop has offered, in ticks.
fn last_offered(it: &Itinerary) -> u64
    requires { length it.now.levels ≡ length it.now.route }
    ensures { result ≡ bound_at_end it.now.route it.now.levels }
{
    bound_of(&it.offer(it.offers()))
}

// The bound that a hop has offered, in ticks.
fn bound_of(offer: &Offer) -> u64
    requires { IsLevelOf offer.now.hop (level_number offer.now.level) }
    ensures value { result ≡ bound_at offer.now.hop.bounds (level_number offer.now.level) }
    ensures valid { IsTrue (are_bounds offer.now.hop.bounds) }
{
    u64::from(offer.hop.bounds.at(offer.level))
}

// Shares the slack out, from the last hop to the first.
fn share_out(it: &Itinerary, slack: u64, jitter: Option<u64>, out: &mut Levels)
    requires whole { length it.now.levels ≡ length it.now.route }
    requires fits { slack + delay_over it.now.route it.now.levels < 2 ^ 64 }
    requires jitter { IsWithin jitter (bound_at_end it.now.route it.now.levels) }
    ensures levels { levels_of out.new ≡ (allotment jitter slack 0 it.now.route it.now.levels).levels }
    ensures offers { AreLevels it.now.route it.now.levels }
    ensures bounds { HaveBounds it.now.route }
{
    let mut levels = [Level::LEAST; MOST_HOPS as usize];
    let mut left = slack;
    let mut limit = jitter;
    let mut place = it.offers();
    while place > 0 {
        let offer = it.offer(place);
        let level = within_share(&offer, limit, left / u64::from(place));
        left -= u64::from(offer.hop.bounds.at(level)) - bound_of(&offer);
        limit = None;
        place -= 1;
        levels[place as usize] = level;
    }
    put(&levels[..it.offers() as usize], out);
}

// The largest level of the hop whose bound is within its offered one and a share of the slack, and within the limit.
fn within_share(offer: &Offer, limit: Option<u64>, share: u64) -> Level
    requires level { IsLevelOf offer.now.hop (level_number offer.now.level) }
    requires fits { bound_at offer.now.hop.bounds (level_number offer.now.level) + share < 2 ^ 64 }
    requires limit { IsWithin limit (bound_at offer.now.hop.bounds (level_number offer.now.level)) }
    ensures value { level_number result ≡ relaxed limit offer.now.hop (level_number offer.now.level) share }
    ensures level { IsLevelOf offer.now.hop (level_number result) }
    ensures least { bound_at offer.now.hop.bounds (level_number offer.now.level) ≤ bound_at offer.now.hop.bounds (level_number result) }
    ensures most { bound_at offer.now.hop.bounds (level_number result) ≤ bound_at offer.now.hop.bounds (level_number offer.now.level) + share }
{
    let within = cut(limit, bound_of(offer) + share);
    match offer.hop.bounds.within(within) {
        Some(level) => level,
        None => unreachable!(),
    }
}

// These ticks, but no more than the limit.
fn cut(limit: Option<u64>, ticks: u64) -> u64
    ensures { result ≡ capped limit ticks }
{
    match limit {
        Some(limit) => limit.min(ticks),
        None => ticks,
    }
}

// Puts these levels in place of those in `out`.
fn put(levels: &[Level], out: &mut Levels)
    requires { length levels.now ≤ 16 }
    ensures { levels_of out.new ≡ map level_number levels.now }
{
    out.clear();
    for level in levels {
        out.push(*level);
    }
}
