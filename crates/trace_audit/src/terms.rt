//! What a plan says of a hop of an accepted channel.
ghost use Rattle.std.specs.Prelude.{◌≡◌, ◌-◌, ◌≤◌, IfSome, Some, length, map, slice_index};
ghost use Rattle.std.specs.List.{slice_get};
ghost use Rattle.net_units.specs.Allotted.{levels_of};
ghost use Rattle.net_units.specs.Numbers.{channel_number};
ghost use Rattle.call_script.specs.Plans.{IsPlan};
ghost use Rattle.call_script.specs.Splits.{entry_link, groups_in};
ghost use Rattle.hop_reservation.specs.declared.route.Hop.{Hop as RouteHop};
ghost use Rattle.setup_protocol.specs.Hops.{RequestFits};
ghost use Rattle.setup_protocol.specs.State.{HaveLevels};
ghost use Rattle.call_script.specs.Accepted.{AreAccepted};
ghost use Rattle.trace_audit.specs.Terms.{bound_before, bound_of, hop_terms, levels_given, prop_before, terms_in_route, terms_of_row};

use call_script::Plan;
use net_units::{ChanNo, Kind, Levels, LinkNo};
use run_record::HopRow;
use setup_protocol::Request;
use traffic_contract::Contract;

/// What a plan, and the levels with which a request was accepted, say of a hop of its channel.
#[derive(Clone, Copy)]
pub struct Terms {
    /// The contract of the channel.
    pub contract: Contract,
    /// Its kind of control.
    pub kind: Kind,
    /// How many hops its route has.
    pub hops: u8,
    /// The hop's link.
    pub link: LinkNo,
    /// The units that the link sends in a tick.
    pub rate: u32,
    /// The bound of the hop's level.
    pub bound: u32,
    /// The bound of the level of the hop before; 0 at the first hop.
    pub bound_before: u32,
    /// The propagation of the hop before; 0 at the first hop.
    pub prop_before: u32,
}

// The terms of a row's hop, where its channel was accepted, has that hop, and goes there over the row's link.
pub(crate) fn terms_of(plan: &Plan, levels: &[Option<Levels>], row: &HopRow) -> Option<Terms>
    requires { AreAccepted plan.now levels.now }
    ensures value { result ≡ terms_of_row plan.now levels.now row.now }
    ensures rate { IfSome result (λ terms. 1 ≤ terms.rate) }
    ensures valid { IsPlan plan.now }
{
    match plan.requests().get(row.chan.get() as usize) {
        Some(entry) => match given_to(levels, row.chan) {
            Some(given) => terms_over(plan, &entry.request, &given, row),
            None => None,
        },
        None => None,
    }
}

// Those of a row of a request with these levels, where its route has the row's hop, over the row's link.
fn terms_over(plan: &Plan, request: &Request, levels: &Levels, row: &HopRow) -> Option<Terms>
    requires have { HaveLevels request.now.route (levels_of levels.now) }
    requires fits { RequestFits (map (entry_link (groups_in plan.now)) plan.now.links) request.now }
    ensures value { result ≡ terms_in_route plan.now request.now (levels_of levels.now) row.now }
    ensures rate { IfSome result (λ terms. 1 ≤ terms.rate) }
{
    if row.hop == 0 || row.hop > request.route.len() {
        return None;
    }
    let terms = terms_at(plan, request, levels, row.hop);
    if terms.link.get() == row.link.get() {
        Some(terms)
    } else {
        None
    }
}

// The levels with which the request of this channel was accepted, if it was.
fn given_to(levels: &[Option<Levels>], chan: ChanNo) -> Option<Levels>
    ensures { result ≡ levels_given levels.now (channel_number chan) }
{
    match levels.get(chan.get() as usize) {
        Some(given) => *given,
        None => None,
    }
}

// The terms of the hop at a place, from 1.
fn terms_at(plan: &Plan, request: &Request, levels: &Levels, place: u8) -> Terms
    requires first { 1 ≤ place }
    requires last { place ≤ length request.now.route }
    requires have { HaveLevels request.now.route (levels_of levels.now) }
    requires fits { RequestFits (map (entry_link (groups_in plan.now)) plan.now.links) request.now }
    ensures value { (hop : RouteHop) → slice_get request.now.route (place - 1) ≡ Some hop → result ≡ hop_terms plan.now request.now (levels_of levels.now) (place - 1) hop }
    ensures rate { 1 ≤ result.rate }
{
    let hop = request.route.hop(place);
    let shape = plan.links()[hop.link.get() as usize].shape;
    Terms {
        contract: request.contract,
        kind: request.control.kind(),
        hops: request.route.len(),
        link: hop.link,
        rate: shape.rate,
        bound: bound_at(request, levels, place),
        bound_before: bound_ahead(request, levels, place),
        prop_before: prop_ahead(request, place),
    }
}

// The bound of the level of the hop at a place, from 1.
fn bound_at(request: &Request, levels: &Levels, place: u8) -> u32
    requires first { 1 ≤ place }
    requires last { place ≤ length request.now.route }
    requires have { HaveLevels request.now.route (levels_of levels.now) }
    ensures { result ≡ bound_of (slice_get request.now.route (place - 1)) (slice_index (levels_of levels.now) (place - 1)) }
{
    request.route.hop(place).bounds.at(levels.at(place))
}

// That of the hop before it, or 0 at the first hop.
fn bound_ahead(request: &Request, levels: &Levels, place: u8) -> u32
    requires first { 1 ≤ place }
    requires last { place ≤ length request.now.route }
    requires have { HaveLevels request.now.route (levels_of levels.now) }
    ensures { result ≡ bound_before request.now.route (levels_of levels.now) (place - 1) }
{
    if place == 1 {
        return 0;
    }
    bound_at(request, levels, place - 1)
}

// The propagation of the hop before it, or 0 at the first hop.
fn prop_ahead(request: &Request, place: u8) -> u32
    requires first { 1 ≤ place }
    requires last { place ≤ length request.now.route }
    ensures { result ≡ prop_before request.now.route (place - 1) }
{
    if place == 1 {
        return 0;
    }
    request.route.hop(place - 1).prop
}
