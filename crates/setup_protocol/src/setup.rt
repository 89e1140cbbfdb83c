//! The setup of a channel.
ghost use Rattle.std.specs.Prelude.{◌≡◌, ◌↔◌, ℕ, ◌+◌, ◌-◌, ◌<◌, ◌≤◌, ◌&&◌, ◌++◌, ◌∷◌, [], List, None, Some, IsTrue, IsOk, IsSome, IsNone, IfSome, IfErr, OnErr, OnOk, nat_le, length, option_map};
ghost use Rattle.std.specs.List.{slice_get};
ghost use Rattle.net_units.specs.Allotted.{levels_of};
ghost use Rattle.net_units.specs.Numbers.{level_number};
ghost use Rattle.hop_reservation.specs.Offers.{delay_over, next_levels};
ghost use Rattle.hop_reservation.specs.declared.route.Hop.{Hop};
ghost use Rattle.link_steps.specs.declared.replies.Reply.{Reply as Replied};
ghost use Rattle.setup_protocol.specs.Setup.{answers_reserve, asked, asked_of, at_destination, bound_given, is_expected, is_reserve_refusal, hop_link, next_ask, progress_of, relax_of, relaxing, reserve_of, settled_in, undoing, verdict_of};
ghost use Rattle.link_steps.specs.declared.asks.Ask.TheVariants.{Deny as GiveBack};
ghost use Rattle.setup_protocol.specs.State.{advance, after_reserve, outcome_of, progress_at, with_offers, HaveLevels, IsDenyOf, IsPlace, IsStateOf, IsVerdictOf};
ghost use Rattle.setup_protocol.specs.StateProp.{IsStateOf-prop};

use crate::request::Request;
use crate::verdict::{Deny, Verdict};
use hop_reservation::{Itinerary, Route};
use link_steps::{Ask, Refusal, Reply, Unexpected};
use net_units::{Level, Levels, LinkNo};
use relaxation::allot;

// What is left to do. A `left` counts the hops, from the first on, that are still to be asked.
#[derive(Clone, Copy)]
pub(crate) enum State {
    // The first hop without an offer is to reserve.
    Reserving,
    // Hops are to give their rows back.
    Undoing { left: u8, deny: Deny },
    // Hops are to relax to their levels.
    Relaxing { left: u8, levels: Levels },
    // Nothing.
    Settled(Verdict),
}

/// A request on its way: what its hops have offered, and what is to be asked next.
///
/// It stands for the replies that it has taken, in their order.
#[derive(Drop)]
pub struct Setup {
    pub(crate) request: Request,
    pub(crate) itinerary: Itinerary,
    pub(crate) state: State,
    ghost same_route: { itinerary.route ≡ request.route },
    ghost in_range: { IsStateOf request.route itinerary.levels state } by { IsStateOf-prop request.route itinerary.levels state },
}

impl Setup {
    ghost use Rattle.setup_protocol.specs.Standing.{progress_in, SetupStands};

    /// A setup that has asked nothing yet.
    pub fn new(request: &Request) -> Setup
        ensures request { result.request ≡ request.now }
        ensures stands { SetupStands result [] }
    {
        Setup {
            request: *request,
            itinerary: Itinerary::new(request.route),
            state: State::Reserving,
        }
    }

    /// The next ask, and the link that it goes to; None exactly where the request is settled.
    pub fn next_ask(&self) -> Option<(LinkNo, Ask)>
        ensures asked { result ≡ asked self.now.request (progress_in self.now) }
        ensures next { (replies : List Replied) → SetupStands self.now replies → result ≡ next_ask self.now.request replies }
        ensures settled { IsNone result ↔ IsSome (settled_in (progress_in self.now)) }
    {
        match &self.state {
            State::Reserving => Some(self.reserve()),
            State::Undoing { left, .. } => Some(self.give_back(*left)),
            State::Relaxing { left, levels } => Some(self.relax(*left, levels)),
            State::Settled(_) => None,
        }
    }

    /// Takes the reply to the next ask. One that isn't a reply to it changes nothing. An ask has to be left.
    pub fn take(&mut self, reply: Reply) -> Result<(), Unexpected>
        requires { settled_in (progress_in self.old) ≡ None }
        ensures request { self.new.request ≡ self.old.request }
        ensures expected { IsOk result ↔ IsTrue (is_expected self.old.request (progress_in self.old) reply) }
        ensures taken { OnOk result ((replies : List Replied) → SetupStands self.old replies → SetupStands self.new (replies ++ reply ∷ [])) }
        ensures unexpected { IfErr result (λ odd. (odd.reply ≡ reply) × (option_map (λ to. to.1) (asked self.old.request (progress_in self.old)) ≡ Some odd.ask)) }
        ensures unchanged { OnErr result (self.new ≡ self.old) }
    {
        if self.expects(&reply) {
            self.advance(&reply);
            return Ok(());
        }
        match self.next_ask() {
            Some((_, ask)) => Err(Unexpected { ask, reply }),
            None => unreachable!(),
        }
    }

    /// What the request has come to, Some exactly where it is settled. A denial by a hop names a place of the route, and tells
    /// that no level admits the contract, that the buffer isn't free, or that its packets are too large, and no other
    /// refusal; an acceptance gives each hop one of its levels (`fits`).
    pub fn verdict(&self) -> Option<Verdict>
        ensures value { option_map outcome_of result ≡ settled_in (progress_in self.now) }
        ensures fits { IfSome result (λ verdict. IsVerdictOf self.now.request.route verdict) }
        ensures verdict { (replies : List Replied) → SetupStands self.now replies → option_map outcome_of result ≡ verdict_of self.now.request replies }
    {
        match self.state {
            State::Settled(verdict) => Some(verdict),
            _ => None,
        }
    }

    // The reserve of the first hop that has no offer.
    fn reserve(&self) -> (LinkNo, Ask)
        requires { length self.now.itinerary.levels < length self.now.request.route }
        ensures { Some result ≡ asked_of (slice_get self.now.request.route (length self.now.itinerary.levels)) (λ hop. reserve_of self.now.request self.now.itinerary.levels self.now.itinerary.reach) }
    {
        let route = &self.request.route;
        let place = self.itinerary.offers() + 1;
        let ask = Ask::Reserve {
            chan: self.request.chan,
            contract: self.request.contract,
            kind: self.request.control.kind(),
            delay: self.request.delay,
            up_reach: self.itinerary.reach_before(),
            first: place == 1,
            next: link_after(route, place),
        };
        (route.hop(place).link, ask)
    }

    // The deny of the hop at a place.
    fn give_back(&self, place: u8) -> (LinkNo, Ask)
        requires { IsPlace self.now.request.route place }
        ensures { Some result ≡ asked_of (slice_get self.now.request.route (place - 1)) (λ hop. GiveBack self.now.request.chan) }
    {
        let ask = Ask::Deny {
            chan: self.request.chan,
        };
        (self.request.route.hop(place).link, ask)
    }

    // The relax of the hop at a place.
    fn relax(&self, place: u8, levels: &Levels) -> (LinkNo, Ask)
        requires place { IsPlace self.now.request.route place }
        requires levels { HaveLevels self.now.request.route (levels_of levels.now) }
        ensures { Some result ≡ asked_of (slice_get self.now.request.route (place - 1)) (λ hop. relax_of self.now.request (levels_of levels.now) place) }
    {
        let route = &self.request.route;
        let ask = Ask::Relax {
            chan: self.request.chan,
            level: levels.at(place),
            up_bound: bound_allotted(route, levels, place - 1),
        };
        (route.hop(place).link, ask)
    }

    // Whether this is a reply to the next ask.
    fn expects(&self, reply: &Reply) -> bool
        ensures { result ≡ is_expected self.now.request (progress_in self.now) reply.now }
    {
        match (&self.state, reply) {
            (State::Reserving, Reply::Offer { level, reach }) => self.has_levels(*level, *reach),
            (State::Reserving, Reply::Refused(refusal)) => refuses_reserve(refusal),
            (State::Undoing { .. }, Reply::Denied) => true,
            (State::Relaxing { .. }, Reply::Relaxed { .. }) => true,
            _ => false,
        }
    }

    // Whether both are levels of the first hop that has no offer.
    fn has_levels(&self, level: Level, reach: Level) -> bool
        requires { length self.now.itinerary.levels < length self.now.request.route }
        ensures { result ≡ (nat_le (level_number level) (next_levels self.now.request.route self.now.itinerary.levels) && nat_le (level_number reach) (next_levels self.now.request.route self.now.itinerary.levels)) }
    {
        let hop = self.request.route.hop(self.itinerary.offers() + 1);
        let levels = hop.bounds.len();
        level.get() <= levels && reach.get() <= levels
    }

    // Goes on with a reply to the next ask.
    fn advance(&mut self, reply: &Reply)
        requires { IsTrue (is_expected self.old.request (progress_in self.old) reply.now) }
        ensures request { self.new.request ≡ self.old.request }
        ensures progress { progress_in self.new ≡ advance self.old.request (progress_in self.old) reply.now }
    {
        match self.state {
            State::Reserving => self.take_reserved(reply),
            State::Undoing { left, deny } => self.state = undo(left - 1, deny),
            State::Relaxing { left, levels } => {
                self.state = relax_on(&self.request.route, left - 1, levels);
            }
            State::Settled(_) => unreachable!(),
        }
    }

    // Takes the reply of a reserve.
    fn take_reserved(&mut self, reply: &Reply)
        requires left { length self.old.itinerary.levels < length self.old.request.route }
        requires expected { IsTrue (answers_reserve (next_levels self.old.request.route self.old.itinerary.levels) reply.now) }
        ensures request { self.new.request ≡ self.old.request }
        ensures taken { progress_in self.new ≡ after_reserve self.old.request self.old.itinerary.levels reply.now }
    {
        match reply {
            Reply::Offer { level, reach } => {
                self.itinerary.push_offer(*level, *reach);
                self.state = after_offer(&self.request, &self.itinerary);
            }
            Reply::Refused(refusal) => {
                let before = self.itinerary.offers();
                let deny = Deny::Hop {
                    hop: before + 1,
                    refusal: *refusal,
                };
                self.state = undo(before, deny);
            }
            _ => unreachable!(),
        }
    }
}

// Whether a reserve is refused so.
fn refuses_reserve(refusal: &Refusal) -> bool
    ensures { result ≡ is_reserve_refusal refusal.now }
{
    matches!(
        refusal,
        Refusal::NoLevel { .. } | Refusal::NoBuffer { .. } | Refusal::TooWide { .. }
    )
}

// The link of the hop after a place, where there is one.
fn link_after(route: &Route, place: u8) -> Option<LinkNo>
    requires { IsPlace route.now place }
    ensures { result ≡ option_map hop_link (slice_get route.now place) }
{
    if place < route.len() {
        Some(route.hop(place + 1).link)
    } else {
        None
    }
}

// The bound that the hop at a place is allotted, in ticks, or 0 for the place before the first hop.
fn bound_allotted(route: &Route, levels: &Levels, place: u8) -> u64
    requires place { place ≤ length route.now }
    requires levels { HaveLevels route.now (levels_of levels.now) }
    ensures { result ≡ bound_given route.now (levels_of levels.now) place }
{
    match place {
        0 => 0,
        place => u64::from(route.hop(place).bounds.at(levels.at(place))),
    }
}

// What is left after an offer: the next reserve, or what the destination's test leaves.
fn after_offer(request: &Request, it: &Itinerary) -> State
    requires { it.now.route ≡ request.now.route }
    ensures progress { progress_at it.now.levels it.now.reach result ≡ with_offers request.now it.now.levels it.now.reach }
    ensures range { IsStateOf request.now.route it.now.levels result }
{
    if it.offers() < request.route.len() {
        State::Reserving
    } else {
        test(request, it)
    }
}

// The destination's test of the offers of all hops.
fn test(request: &Request, it: &Itinerary) -> State
    requires same { it.now.route ≡ request.now.route }
    requires whole { length it.now.levels ≡ length request.now.route }
    ensures progress { progress_at it.now.levels it.now.reach result ≡ at_destination request.now it.now.levels 0 }
    ensures range { IsStateOf request.now.route it.now.levels result }
{
    let mut levels = Levels::new();
    match allot(it, request.delay, request.control.jitter(), &mut levels) {
        Ok(()) => relax_on(&request.route, it.offers(), levels),
        Err(denial) => undo(it.offers(), Deny::End(denial)),
    }
}

// This many hops are left to give their rows back.
fn undo(left: u8, deny: Deny) -> State
    ensures progress { (offers : List ℕ) (reach : ℕ) → progress_at offers reach result ≡ undoing left deny }
    ensures range { (route : List Hop) (offers : List ℕ) → left ≤ length route → IsDenyOf route deny → IsStateOf route offers result }
{
    if left == 0 {
        State::Settled(Verdict::Denied(deny))
    } else {
        State::Undoing { left, deny }
    }
}

// This many hops are left to be relaxed.
fn relax_on(route: &Route, left: u8, levels: Levels) -> State
    requires place { left ≤ length route.now }
    requires levels { HaveLevels route.now (levels_of levels) }
    ensures progress { (offers : List ℕ) (reach : ℕ) → progress_at offers reach result ≡ relaxing route.now left (levels_of levels) }
    ensures range { (offers : List ℕ) → IsStateOf route.now offers result }
{
    if left == 0 {
        let delay = delay_at(route, &levels);
        State::Settled(Verdict::Accepted { levels, delay })
    } else {
        State::Relaxing { left, levels }
    }
}

// The end-to-end delay at these levels, in ticks.
fn delay_at(route: &Route, levels: &Levels) -> u64
    requires { HaveLevels route.now (levels_of levels.now) }
    ensures { result ≡ delay_over route.now (levels_of levels.now) }
{
    let mut sum = 0;
    for index in 0..levels.len() {
        let hop = route.hop(index + 1);
        sum += u64::from(hop.bounds.at(levels.at(index + 1))) + u64::from(hop.prop);
    }
    sum
}
