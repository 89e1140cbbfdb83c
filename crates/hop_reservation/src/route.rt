//! The route of a channel.
ghost use Rattle.std.specs.Prelude.{◌≡◌, ◌↔◌, ◌-◌, ◌≤◌, IsOk, IfOk, MatchResult, Some, None, length};
ghost use Rattle.std.specs.List.{slice_get};
ghost use Rattle.net_units.specs.Numbers.{link_number};
ghost use Rattle.hop_reservation.specs.Routes.{fault_in, filled, repeated_in, stands_among, IsRoute};

use net_units::limits::MOST_HOPS;
use net_units::{Bounds, LinkNo};
use std::marker::Model;

/// A hop of a route: the link by which it leaves a node.
#[derive(Clone, Copy)]
pub struct Hop {
    /// The link.
    pub link: LinkNo,
    /// The delay bounds of the link's levels, in ticks.
    pub bounds: Bounds,
    /// The link's propagation, in ticks.
    pub prop: u32,
}

/// Hops that aren't a route.
#[derive(Clone, Copy, Debug, PartialEq, Eq)]
pub struct BadRoute {
    /// 17 where there are more than 16 hops, and 0 where there is none; else the first place, from 1, whose link has
    /// occurred before.
    pub place: u8,
}

/// A route: 1 to 16 hops in the order in which its packets pass them, each by a different link.
///
/// A contract sees the list of the hops.
#[derive(Clone, Copy)]
pub struct Route {
    hops: [Hop; MOST_HOPS as usize],
    len: u8,
}

impl Model for Route {
    ghost use Rattle.std.specs.Prelude.{List, length, take};
    ghost use Rattle.hop_reservation.specs.declared.route.Hop.{Hop};
    ghost use Rattle.hop_reservation.specs.Routes.{IsRoute, IsFilled, filled};

    ghost Value = { List Hop };

    ghost view = { λ r. take r.len r.hops };

    ghost invariant = { λ r. IsRoute (take r.len r.hops) × IsFilled r.len r.hops };

    ghost inverse = { λ hs. record { hops = filled hs; len = length hs } };

    ghost inverse_ok = { λ r h i. record { hops = h.1.whole i; len = h.1.count i } };
}

impl Route {
    /// The route of these hops, refused where there are more than 16, or none, or where a link occurs twice.
    pub fn new(hops: &[Hop]) -> Result<Route, BadRoute>
        ensures found { IsOk result ↔ IsRoute hops.now }
        ensures refusal { MatchResult result
            (λ _. fault_in hops.now ≡ None)
            (λ bad. fault_in hops.now ≡ Some bad.place) }
        ensures value { IfOk result (λ route. route ≡ hops.now) }
    {
        if hops.len() > MOST_HOPS as usize {
            return Err(BadRoute { place: 17 });
        }
        match hops {
            [] => Err(BadRoute { place: 0 }),
            [first, ..] => match repeated(hops) {
                Some(place) => Err(BadRoute { place }),
                None => Ok(Route {
                    hops: with_first(*first, hops),
                    len: hops.len() as u8,
                }),
            },
        }
    }

    /// How many hops there are, from 1 to 16.
    pub fn len(&self) -> u8
        ensures value { result ≡ length self.now }
        ensures valid { IsRoute self.now }
    {
        self.len
    }

    /// The hop at a place, from 1.
    pub fn hop(&self, place: u8) -> Hop
        requires first { 1 ≤ place }
        requires last { place ≤ length self.now }
        ensures value { slice_get self.now (place - 1) ≡ Some result }
        ensures valid { IsRoute self.now }
    {
        self.hops[place as usize - 1]
    }
}

// The first place, from 1, whose link has occurred before.
fn repeated(hops: &[Hop]) -> Option<u8>
    requires { length hops.now ≤ 16 }
    ensures { result ≡ repeated_in hops.now }
{
    for index in 0..hops.len() {
        if stands_in(&hops[..index], hops[index].link) {
            return Some(index as u8 + 1);
        }
    }
    None
}

// Whether one of the hops is by this link.
fn stands_in(hops: &[Hop], link: LinkNo) -> bool
    ensures { result ≡ stands_among hops.now (link_number link) }
{
    hops.iter().any(|hop| hop.link.get() == link.get())
}

// The hops, and the first of them again in the places after them.
fn with_first(first: Hop, hops: &[Hop]) -> [Hop; MOST_HOPS as usize]
    requires first { slice_get hops.now 0 ≡ Some first }
    requires most { length hops.now ≤ 16 }
    ensures { result ≡ filled hops.now }
{
    let mut cells = [first; MOST_HOPS as usize];
    cells[..hops.len()].copy_from_slice(hops);
    cells
}
