//! The packets on their way, in the order of their departures, found by the round in which they are due.
ghost use Rattle.std.specs.Prelude.{◌≡◌, ◌+◌, ◌-◌, ◌^◌, ◌≤◌, ◌<◌, ◌++◌, ◌∷◌, [], suc, None, IsOk, IsSome, OnOk, OnErr, IfOk, is_some, length, find, filter};
ghost use Rattle.tick_plane.specs.Planes.{is_due};
ghost use Rattle.tick_plane.specs.Carried.{ArePunctual, flights_at};
ghost use Rattle.tick_plane.specs.Coming.{IsDueFrom, is_before, is_from};
ghost use Rattle.link_steps.specs.Lists.{Each, without_first};

use crate::flight::{Flight, OnWay};
use net_units::OutOfMemory;
use std::alloc::Global;
use std::marker::Model;
use tick_calendar::Calendar;

// The flights of a plane, none of which is due before the round at hand.
//
// It is seen as the list of the flights, in the order in which they were put; the round at hand; and for how many more flights
// there is room, as `spare`.
#[derive(Drop)]
pub(crate) struct Flights {
    // Each flight for the round in which it is due. The calendar's clock is the round at hand.
    ways: Calendar<OnWay>,
}

impl Model for Flights {
    ghost use Rattle.tick_plane.specs.Carried.{AreFlights, ArePunctual, flights_at};

    ghost Value = { AreFlights };

    ghost view = { λ f. record { list = flights_at f.ways.entries; round = f.ways.clock; spare = f.ways.spare } };

    ghost invariant = { λ f. ArePunctual f.ways };
}

impl Flights {
    // No flight, at round 0, and no room.
    pub(crate) fn new(alloc: Global) -> Result<Flights, OutOfMemory>
        ensures { IfOk result (λ made. made ≡ record { list = []; round = 0; spare = 0 }) }
    {
        Ok(Flights {
            ways: Calendar::new(alloc)?,
        })
    }

    // Makes room for `more` more flights at least. Where there is that room already it does nothing. An `Err` changes
    // nothing.
    #[inline(always)]
    pub(crate) fn reserve(&mut self, more: usize) -> Result<(), OutOfMemory>
        ensures room { OnOk result (more ≤ self.new.spare) }
        ensures had_room { more ≤ self.old.spare → IsOk result }
        ensures nothing { more ≤ self.old.spare → self.new ≡ self.old }
        ensures grows { self.old.spare ≤ self.new.spare }
        ensures kept { self.new ≡ record self.old { spare = self.new.spare } }
        ensures err { OnErr result (self.new ≡ self.old) }
    {
        self.ways.reserve(more)
    }

    // Puts a flight after the others, which is due later than in the round at hand. There is room for it, so it takes no
    // memory.
    #[inline(always)]
    pub(crate) fn put(&mut self, flight: Flight)
        requires room { 1 ≤ self.old.spare }
        requires later { self.old.round < flight.round }
        ensures { self.new ≡ record self.old { list = self.old.list ++ flight ∷ []; spare = self.old.spare - 1 } }
    {
        let Flight { to, round, packet } = flight;
        self.ways.put(round, OnWay { to, packet });
    }

    // Whether a flight is due in the round at hand.
    #[inline(always)]
    pub(crate) fn has_due(&self) -> bool
        ensures { result ≡ is_some (find (is_due self.now.round) self.now.list) }
    {
        self.ways.due().is_some()
    }

    // The first flight that is due in the round at hand.
    #[inline(always)]
    pub(crate) fn first_due(&self) -> Option<Flight>
        ensures { result ≡ find (is_due self.now.round) self.now.list }
    {
        let way = self.ways.due()?;
        Some(Flight {
            to: way.to,
            round: self.ways.clock(),
            packet: way.packet,
        })
    }

    // Takes out the first flight that is due in the round at hand.
    #[inline(always)]
    pub(crate) fn land(&mut self)
        requires { IsSome (find (is_due self.old.round) self.old.list) }
        ensures { self.new ≡ record self.old { list = without_first (is_due self.old.round) self.old.list; spare = self.old.spare + 1 } }
    {
        self.ways.take();
    }

    // Begins the next round, where none is due in this one.
    #[inline(always)]
    pub(crate) fn begin_round(&mut self)
        requires early { self.old.round < 2 ^ 60 }
        requires none { find (is_due self.old.round) self.old.list ≡ None }
        ensures { self.new ≡ record self.old { round = suc self.old.round } }
    {
        let round = self.ways.clock() + 1;
        self.ways.go_on(round);
    }

    // A round before which none is due.
    pub(crate) fn none_before(&self) -> u64
        ensures { Each (IsDueFrom result) self.now.list }
    {
        self.ways.rests_until()
    }

    // Begins the round that comes this many later, where none is due before it.
    pub(crate) fn pass_rounds(&mut self, rounds: u64)
        requires early { self.old.round + rounds ≤ 2 ^ 60 }
        requires none { Each (IsDueFrom (self.old.round + rounds)) self.old.list }
        ensures { self.new ≡ record self.old { round = self.old.round + rounds } }
    {
        let round = self.ways.clock() + rounds;
        self.ways.go_on(round);
    }

    // Begins round `until`: those that are due before it are gone.
    pub(crate) fn drop_before(&mut self, until: u64)
        requires { self.old.round ≤ until }
        ensures round { self.new.round ≡ until }
        ensures list { self.new.list ≡ filter (is_from until) self.old.list }
    {
        drop_due(&mut self.ways, until);
    }

    // All of them, in their order.
    pub(crate) fn list(&self, alloc: Global) -> Result<Vec<Flight>, OutOfMemory>
        ensures { IfOk result (λ all. all.items ≡ self.now.list) }
    {
        let entries = self.ways.entries(alloc)?;
        listed(alloc, &entries)
    }

    // Those that are due before a round, in their order. None of them is due before the round at hand.
    pub(crate) fn due_before(&self, alloc: Global, until: u64) -> Result<Vec<Flight>, OutOfMemory>
        ensures due { IfOk result (λ due. due.items ≡ filter (is_before until) self.now.list) }
        ensures ahead { IfOk result (λ due. Each (IsDueFrom self.now.round) due.items) }
    {
        let mut entries = self.ways.entries(alloc)?;
        entries.retain(|entry| entry.0 < until);
        listed(alloc, &entries)
    }

    // How many there are.
    pub(crate) fn len(&self) -> usize
        ensures { result ≡ length self.now.list }
    {
        self.ways.len()
    }
}

// The flights of these entries of the calendar.
fn listed(alloc: Global, entries: &[(u64, OnWay)]) -> Result<Vec<Flight>, OutOfMemory>
    ensures { IfOk result (λ all. all.items ≡ flights_at entries.now) }
{
    let mut all = Vec::with_capacity(alloc, entries.len())?;
    for entry in entries {
        all.push(Flight {
            to: entry.1.to,
            round: entry.0,
            packet: entry.1.packet,
        })?;
    }
    Ok(all)
}

// Takes out the entries that are due before round `until`, the earliest first, and goes on to it.
fn drop_due(ways: &mut Calendar<OnWay>, until: u64)
    requires early { ways.old.clock ≤ until }
    requires punctual { ArePunctual ways.old }
    ensures clock { ways.new.clock ≡ until }
    ensures punctual { ArePunctual ways.new }
    ensures left { flights_at ways.new.entries ≡ filter (is_from until) (flights_at ways.old.entries) }
{
    if ways.clock() == until {
        return;
    }
    let last = until - 1;
    while ways.take_due(last).is_some() {}
    ways.go_on(until);
}
