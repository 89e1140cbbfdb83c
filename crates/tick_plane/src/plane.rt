//! The rounds of arrivals and ticks.
ghost use Rattle.std.specs.Prelude.{◌≡◌, ◌+◌, ◌-◌, ◌^◌, ◌<◌, ◌≤◌, ◌↔◌, ◌⊎◌, ◌++◌, [], true, None, Some, IsTrue, IsOk, IsSome, IsNone, OnOk, OnErr, IfOk, IfErr, IfSome, length, option_map, filter};
ghost use Rattle.link_steps.specs.declared.asks.Ask.TheVariants.{Tick as AskTick};
ghost use Rattle.link_steps.specs.Lists.{Each};
ghost use Rattle.tick_plane.specs.Coming.{is_from};
ghost use Rattle.tick_plane.specs.QuietRounds.{HasQuietRounds, rounds_later};
ghost use Rattle.tick_plane.specs.Rounds.{rest_of};
ghost use Rattle.tick_plane.specs.Planes.{flight_of, next_due, tick_made, plane_ask, plane_after, plane_expects, plane_start, IsDueLater};

use crate::flight::Flight;
use crate::flights::Flights;
use crate::rest::{add_arrivals, add_ticks};
use crate::window::Window;
use link_steps::{Ask, Refusal, Reply, Sent, Unexpected};
use net_units::{LinkNo, OutOfMemory};
use std::alloc::Global;
use std::marker::Model;

/// The plane of a network of 1 to 32 links, with its number of rounds.
///
/// A contract sees these two numbers; where it stands, by round, link and flights, as `at`; and for how many more flights
/// there is room, as `spare`.
#[derive(Drop)]
pub struct Plane {
    links: u32,
    rounds: u64,
    // The round, the links that have made its tick, and the packets on their way.
    round: u64,
    ticked: u32,
    flights: Flights,
    ghost links_most: { links ≤ 32 },
    ghost in_links: { ticked < links },
    ghost rounds_most: { rounds < 2 ^ 60 },
    ghost in_rounds: { round ≤ rounds },
    ghost same_round: { flights.round ≡ round },
}

impl Model for Plane {
    ghost use Rattle.tick_plane.specs.PlaneAccount.{PlaneAccount};

    ghost Value = { PlaneAccount };

    ghost view = { λ p. record { links = p.links; rounds = p.rounds; at = record { round = p.round; ticked = p.ticked; flights = p.flights.list }; spare = p.flights.spare } };
}

impl Plane {
    /// A plane at the start of its first round, without room for a flight. It has 1 to 32 links and fewer than 2^60 rounds.
    /// An `Err` comes only for want of memory.
    pub fn new(alloc: Global, links: u32, rounds: u64) -> Result<Plane, OutOfMemory>
        requires links_least { 1 ≤ links }
        requires links_most { links ≤ 32 }
        requires rounds_most { rounds < 2 ^ 60 }
        ensures { IfOk result (λ made. made ≡ record { links = links; rounds = rounds; at = plane_start; spare = 0 }) }
    {
        Ok(Plane {
            links,
            rounds,
            round: 0,
            ticked: 0,
            flights: Flights::new(alloc)?,
        })
    }

    /// Makes room for one flight of each link that hasn't made its tick in this round. Where there is that room already, as
    /// in the rest of a round in which this was answered Ok, it does nothing. An `Err`, which comes for want of memory alone,
    /// changes nothing.
    #[inline(always)]
    pub fn ready(&mut self) -> Result<(), OutOfMemory>
        ensures room { OnOk result (self.new.links - self.new.at.ticked ≤ self.new.spare) }
        ensures had_room { self.old.links - self.old.at.ticked ≤ self.old.spare → IsOk result }
        ensures nothing { self.old.links - self.old.at.ticked ≤ self.old.spare → self.new ≡ self.old }
        ensures grows { self.old.spare ≤ self.new.spare }
        ensures kept { self.new ≡ record self.old { spare = self.new.spare } }
        ensures err { OnErr result (self.new ≡ self.old) }
    {
        self.flights.reserve((self.links - self.ticked) as usize)?;
        Ok(())
    }

    /// The next ask, and the link that it goes to. None comes exactly where all rounds are made.
    pub fn next_ask(&self) -> Option<(LinkNo, Ask)>
        ensures asked { result ≡ plane_ask self.now.rounds self.now.at }
        ensures in_links { self.now.at.ticked < self.now.links }
        ensures few { self.now.links ≤ 32 }
        ensures done { IsNone result ↔ (self.now.at.round ≡ self.now.rounds) }
    {
        if self.round == self.rounds {
            return None;
        }
        match self.flights.first_due() {
            Some(flight) => {
                let ask = Ask::Arrive {
                    packet: flight.packet,
                };
                Some((flight.to, ask))
            }
            None => Some((LinkNo::numbered(self.ticked), Ask::Tick)),
        }
    }

    /// The link whose tick is the next ask. None comes exactly where a packet arrives first, or all rounds are made.
    #[inline(always)]
    pub fn next_tick(&self) -> Option<LinkNo>
        ensures asked { IfSome result (λ link. plane_ask self.now.rounds self.now.at ≡ Some (link, AskTick)) }
        ensures none { IsNone result → IsSome (next_due self.now.at) ⊎ (self.now.at.round ≡ self.now.rounds) }
    {
        if self.round == self.rounds || self.flights.has_due() {
            return None;
        }
        Some(LinkNo::numbered(self.ticked))
    }

    /// Takes the reply to the next ask. An ask has to be left, and `ready` has to have made room in this round, so it takes no
    /// memory; there is that room for the rest of the round. A packet that leaves with the reply has to be due at its next link
    /// after this round. A reply that isn't one to the ask is answered with the ask, and changes nothing: to an arrive, a
    /// packet is taken, or refused as full or as stray; to a tick, the tick is made.
    pub fn take(&mut self, reply: Reply) -> Result<(), Unexpected>
        requires left { self.old.at.round < self.old.rounds }
        requires room { self.old.links - self.old.at.ticked ≤ self.old.spare }
        requires later { IsDueLater self.old.at.round reply }
        ensures expected { IsOk result ↔ IsTrue (plane_expects (next_due self.old.at) reply) }
        ensures taken { OnOk result (self.new.at ≡ plane_after self.old.links reply self.old.at) }
        ensures links { self.new.links ≡ self.old.links }
        ensures rounds { self.new.rounds ≡ self.old.rounds }
        ensures room { self.new.at.round ≡ self.old.at.round → self.new.links - self.new.at.ticked ≤ self.new.spare }
        ensures unexpected { IfErr result (λ odd. (odd.reply ≡ reply) × (option_map (λ to. to.1) (plane_ask self.old.rounds self.old.at) ≡ Some odd.ask)) }
        ensures unchanged { OnErr result (self.new ≡ self.old) }
    {
        match (self.flights.first_due(), reply) {
            (
                Some(_),
                Reply::Taken { .. } | Reply::Refused(Refusal::Full { .. } | Refusal::Stray { .. }),
            ) => {
                self.flights.land();
                Ok(())
            }
            (None, Reply::Ticked { sent, .. }) => {
                self.tick(&sent);
                Ok(())
            }
            (Some(flight), _) => Err(Unexpected {
                ask: Ask::Arrive {
                    packet: flight.packet,
                },
                reply,
            }),
            (None, _) => Err(Unexpected {
                ask: Ask::Tick,
                reply,
            }),
        }
    }

    /// Takes the reply to the next ask, as [`Plane::take`] does, where it is one to that ask. It isn't copied.
    pub fn take_expected(&mut self, reply: &Reply)
        requires left { self.old.at.round < self.old.rounds }
        requires room { self.old.links - self.old.at.ticked ≤ self.old.spare }
        requires later { IsDueLater self.old.at.round reply.now }
        requires expected { plane_expects (next_due self.old.at) reply.now ≡ true }
        ensures taken { self.new.at ≡ plane_after self.old.links reply.now self.old.at }
        ensures links { self.new.links ≡ self.old.links }
        ensures rounds { self.new.rounds ≡ self.old.rounds }
        ensures room { self.new.at.round ≡ self.old.at.round → self.new.links - self.new.at.ticked ≤ self.new.spare }
    {
        match reply {
            Reply::Ticked { sent, .. } => self.tick(sent),
            _ => self.flights.land(),
        }
    }

    /// Takes the reply to the next ask, a tick with which no packet leaves for another link, as [`Plane::take`] does. The reply
    /// isn't needed, nor is room.
    #[inline(always)]
    pub fn pass(&mut self)
        requires left { self.old.at.round < self.old.rounds }
        requires none { next_due self.old.at ≡ None }
        ensures passed { self.new.at ≡ tick_made self.old.links self.old.at [] }
        ensures links { self.new.links ≡ self.old.links }
        ensures rounds { self.new.rounds ≡ self.old.rounds }
        ensures spare { self.new.spare ≡ self.old.spare }
    {
        if self.ticked + 1 == self.links {
            self.flights.begin_round();
            self.round += 1;
            self.ticked = 0;
        } else {
            self.ticked += 1;
        }
    }

    /// The asks that are left in this round, in order: the packets that reach their next links in it arrive, in the order in
    /// which they departed, and then the links that haven't made its tick make it. No reply of this round changes them
    /// ([`rounds_are_asked_in_turn`](crate::laws::rounds_are_asked_in_turn)). There is none where all rounds are made. An `Err`
    /// comes only for want of memory.
    pub fn rest(&self, alloc: Global) -> Result<Vec<(LinkNo, Ask)>, OutOfMemory>
        ensures { IfOk result (λ asks. asks.items ≡ rest_of self.now.links self.now.rounds self.now.at) }
    {
        let mut asks = Vec::new(alloc);
        if self.round >= self.rounds {
            return Ok(asks);
        }
        let flights = self.flights.list(alloc)?;
        add_arrivals(&flights, self.round, &mut asks)?;
        add_ticks(self.ticked, self.links, &mut asks)?;
        Ok(asks)
    }

    /// At least how many rounds it makes from here before a packet reaches a link: none where the round has begun, or all are
    /// made.
    pub fn quiet_rounds(&self) -> u64
        ensures { 1 ≤ result → HasQuietRounds self.now.rounds result self.now.at }
    {
        if self.ticked != 0 {
            return 0;
        }
        let until = self.flights.none_before().min(self.rounds);
        until.saturating_sub(self.round)
    }

    /// Makes this many rounds in one stride, in which no packet reaches a link and none leaves for another one. In them it
    /// would ask for the ticks of the links alone, and come to stand here
    /// ([`quiet_rounds_are_ticks_alone`](crate::laws::quiet_rounds_are_ticks_alone)).
    pub fn stride(&mut self, rounds: u64)
        requires { HasQuietRounds self.old.rounds rounds self.old.at }
        ensures { self.new ≡ record self.old { at = rounds_later rounds self.old.at } }
    {
        self.flights.pass_rounds(rounds);
        self.round += rounds;
    }

    /// The packet that has left a link with a tick that was made in a window is on its way, where there is a next link. It has to be
    /// due there after this round. An `Err` comes only for want of memory.
    #[inline(always)]
    pub fn send(&mut self, sent: &Option<Sent>) -> Result<(), OutOfMemory>
        requires later { Each (λ flight. self.old.at.round < flight.round) (flight_of sent.now) }
        ensures sent { OnOk result (self.new.at ≡ record self.old.at { flights = self.old.at.flights ++ flight_of sent.now }) }
        ensures links { self.new.links ≡ self.old.links }
        ensures rounds { self.new.rounds ≡ self.old.rounds }
    {
        self.flights.reserve(1)?;
        self.depart(sent);
        Ok(())
    }

    /// Goes on to the start of round `until`, where the rounds before it have been made in a window: the packets that were due in them
    /// have reached their links.
    pub fn skip_to(&mut self, until: u64)
        requires early { self.old.at.round ≤ until }
        requires all { until ≤ self.old.rounds }
        ensures at { self.new.at ≡ record { round = until; ticked = 0; flights = filter (is_from until) self.old.at.flights } }
        ensures links { self.new.links ≡ self.old.links }
        ensures rounds { self.new.rounds ≡ self.old.rounds }
    {
        self.flights.drop_before(until);
        self.round = until;
        self.ticked = 0;
    }

    /// The window from here until round `until` begins. An `Err` comes only for want of memory.
    pub fn window(&self, alloc: Global, until: u64) -> Result<Window<'_>, OutOfMemory>
        ensures { IfOk result (λ made. made ≡ record { at = self.now.at; until = until }) }
    {
        let due = self.flights.due_before(alloc, until)?;
        Window::new(alloc, self, until, &due)
    }

    /// The number of the round, which is how many are made.
    pub fn round(&self) -> u64
        ensures { result ≡ self.now.at.round }
    {
        self.round
    }

    /// How many links have made the tick of the round.
    pub fn ticked(&self) -> u32
        ensures { result ≡ self.now.at.ticked }
    {
        self.ticked
    }

    /// How many packets are on their way.
    pub fn flights(&self) -> usize
        ensures { result ≡ length self.now.at.flights }
    {
        self.flights.len()
    }
}

impl Plane {
    // The next link has made its tick, and this packet left it.
    fn tick(&mut self, sent: &Option<Sent>)
        requires none { next_due self.old.at ≡ None }
        requires left { self.old.at.round < self.old.rounds }
        requires room { self.old.links - self.old.at.ticked ≤ self.old.spare }
        requires later { Each (λ flight. self.old.at.round < flight.round) (flight_of sent.now) }
        ensures ticked { self.new.at ≡ tick_made self.old.links self.old.at (flight_of sent.now) }
        ensures links { self.new.links ≡ self.old.links }
        ensures rounds { self.new.rounds ≡ self.old.rounds }
        ensures room { 1 ≤ self.new.at.ticked → self.new.links - self.new.at.ticked ≤ self.new.spare }
    {
        prove!(self.ticked < self.links);
        self.depart(sent);
        self.pass();
    }

    // A packet that has left a link is on its way, where there is a next link.
    fn depart(&mut self, sent: &Option<Sent>)
        requires room { 1 ≤ self.old.spare }
        requires later { Each (λ flight. self.old.at.round < flight.round) (flight_of sent.now) }
        ensures { self.new ≡ record self.old { at = record self.old.at { flights = self.old.at.flights ++ flight_of sent.now }; spare = self.old.spare - length (flight_of sent.now) } }
    {
        if let Some(
            Sent {
                packet,
                arrives,
                next: Some(to),
                ..
            },
        ) = sent
        {
            self.flights.put(Flight {
                to: *to,
                round: *arrives,
                packet: *packet,
            });
        }
    }
}
