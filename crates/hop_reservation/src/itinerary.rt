//! A route with what its hops have offered.
ghost use Rattle.std.specs.Prelude.{◌≡◌, ◌+◌, ◌-◌, ◌<◌, ◌≤◌, [], ◌∷◌, ◌++◌, length, slice_index, Some};
ghost use Rattle.std.specs.List.{slice_get};
ghost use Rattle.net_units.specs.Numbers.{level_number};
ghost use Rattle.net_units.specs.Limits.{most_bound};
ghost use Rattle.hop_reservation.specs.Offers.{delay_over, next_bound, next_levels, AreLevels, IsLevelOf};
ghost use Rattle.hop_reservation.specs.Routes.{IsRoute};

use crate::route::{Hop, Route};
use net_units::{Level, Levels};
use std::marker::Model;

/// What a hop has offered.
#[derive(Clone, Copy)]
pub struct Offer {
    /// The hop.
    pub hop: Hop,
    /// One of the hop's levels.
    pub level: Level,
}

/// A route and what its hops have offered so far, from the first hop on.
///
/// A contract sees the route's hops, the levels offered, and the bound of the last reach in ticks.
#[derive(Drop)]
pub struct Itinerary {
    route: Route,
    levels: Levels,
    reach: u32,
    delay: u64,
}

impl Model for Itinerary {
    ghost use Rattle.net_units.specs.Allotted.{levels_of};
    ghost use Rattle.hop_reservation.specs.Offers.{Offered, AreOffers, offered};

    ghost Value = { Offered };

    ghost view = { λ it. offered it.route (levels_of it.levels) it.reach };

    ghost invariant = { λ it. AreOffers it.route (levels_of it.levels) it.reach it.delay };
}

impl Itinerary {
    ghost use Rattle.hop_reservation.specs.Offers.{offered};

    /// The route without offers.
    pub fn new(route: Route) -> Itinerary
        ensures value { result ≡ offered route [] 0 }
        ensures valid { IsRoute route }
    {
        // `len` tells that the route is one.
        let _hops = route.len();
        Itinerary {
            route,
            levels: Levels::new(),
            reach: 0,
            delay: 0,
        }
    }

    /// Adds the offer of the first hop that has none: a level, and the reach.
    pub fn push_offer(&mut self, level: Level, reach: Level)
        requires left { length self.old.levels < length self.old.route }
        requires level { level_number level ≤ next_levels self.old.route self.old.levels }
        requires reach { level_number reach ≤ next_levels self.old.route self.old.levels }
        ensures { self.new ≡ offered self.old.route (self.old.levels ++ level_number level ∷ []) (next_bound self.old.route self.old.levels (level_number reach)) }
    {
        let hop = self.route.hop(self.levels.len() + 1);
        self.delay += u64::from(hop.bounds.at(level)) + u64::from(hop.prop);
        self.reach = hop.bounds.at(reach);
        self.levels.push(level);
    }

    /// How many hops have offered, up to 16.
    pub fn offers(&self) -> u8
        ensures value { result ≡ length self.now.levels }
        ensures in_route { result ≤ length self.now.route }
        ensures levels { AreLevels self.now.route self.now.levels }
        ensures valid { IsRoute self.now.route }
    {
        self.levels.len()
    }

    /// The bound of the last reach in ticks, which the reserve at the next hop carries, or 0 before the first offer.
    pub fn reach_before(&self) -> u64
        ensures value { result ≡ self.now.reach }
        ensures most { result ≤ most_bound }
    {
        u64::from(self.reach)
    }

    /// The delay over the hops that have offered: the sum of their level bounds and propagations, in ticks.
    pub fn delay_sum(&self) -> u64
        ensures { result ≡ delay_over self.now.route self.now.levels }
    {
        self.delay
    }

    /// The offer of the hop at a place, from 1.
    pub fn offer(&self, place: u8) -> Offer
        requires first { 1 ≤ place }
        requires last { place ≤ length self.now.levels }
        ensures hop { slice_get self.now.route (place - 1) ≡ Some result.hop }
        ensures level { level_number result.level ≡ slice_index self.now.levels (place - 1) }
        ensures within { IsLevelOf result.hop (level_number result.level) }
    {
        Offer {
            hop: self.route.hop(place),
            level: self.levels.at(place),
        }
    }
}
