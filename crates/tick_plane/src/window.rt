//! A window of rounds, and what each link is asked in it.
ghost use Rattle.std.specs.Prelude.{◌≡◌, ◌≢◌, ℕ, ◌+◌, ◌-◌, ◌<◌, ◌≤◌, ◌++◌, ◌∷◌, [], suc, nat_lt, if◌then◌else◌, Some, OnOk, IfOk, drop, filter, length};
ghost use Rattle.std.specs.List.{slice_get};
ghost use Rattle.link_steps.specs.Lists.{Each};
ghost use Rattle.link_steps.specs.declared.asks.Ask.TheVariants.{Tick};
ghost use Rattle.net_units.specs.Numbers.{link_number};
ghost use Rattle.tick_plane.specs.AskedRuns.{asks_in, ticks};
ghost use Rattle.tick_plane.specs.Coming.{AreByLink, AreLeft, IsDueBefore, IsDueFrom, Rise, arrivals_in, is_before, rounds_in};
ghost use Rattle.tick_plane.specs.Windows.{window_at};

use crate::asked::Asked;
use crate::flight::Flight;
use crate::plane::Plane;
use link_steps::Ask;
use net_units::limits::MOST_LINKS;
use net_units::{LinkNo, OutOfMemory};
use std::alloc::Global;
use std::marker::Model;

/// The rounds from where a plane stands until one begins, to be made for each link on its own.
///
/// A contract sees where the plane stands, as `at`, and the round that begins when the window is over, as `until`.
#[derive(Drop)]
pub struct Window<'a> {
    plane: &'a Plane,
    until: u64,
    // The packets that reach each link before the window is over, in the order of their departures.
    coming: Vec<Vec<Flight>>,
}

impl<'a> Model for Window<'a> {
    ghost use Rattle.tick_plane.specs.Windows.{WindowAt};
    ghost use Rattle.tick_plane.specs.Coming.{AreListed};

    ghost Value = { WindowAt };

    ghost view = { λ w. record { at = w.plane.now.at; until = w.until } };

    ghost invariant = { λ w. AreListed (λ own. own.items) w.until w.plane.now.at w.coming.items };
}

impl<'a> Window<'a> {
    // The window from where the plane stands. These are the packets on their way that are due before it is over.
    pub(crate) fn new(
        alloc: Global,
        plane: &'a Plane,
        until: u64,
        due: &[Flight],
    ) -> Result<Window<'a>, OutOfMemory>
        requires due { due.now ≡ filter (is_before until) plane.now.at.flights }
        requires ahead { Each (IsDueFrom plane.now.at.round) due.now }
        ensures { IfOk result (λ made. made ≡ record { at = plane.now.at; until = until }) }
    {
        let coming = by_link(alloc, due)?;
        Ok(Window {
            plane,
            until,
            coming,
        })
    }

    /// Adds what a link is asked in these rounds, in order: in each, the packets that reach it then arrive, and it makes its
    /// tick. That is what the plane asks of it where no packet that leaves a link in these rounds reaches another in them. An
    /// `Err`, which comes for want of memory alone, may leave some asks added.
    pub fn asks(&self, alloc: Global, link: LinkNo, asks: &mut Vec<Ask>) -> Result<(), OutOfMemory>
        ensures { OnOk result (asks.new.items ≡ asks.old.items ++ window_at (link_number link) self.now.until self.now.at) }
    {
        let round = self.plane.round();
        if round >= self.until {
            return Ok(());
        }
        let own = &self.coming[usize::from(link.get())];
        let coming = sorted(alloc, own, round)?;
        let next = add_arrivals(&coming, 0, round, asks)?;
        add_tick(link, self.plane.ticked(), asks)?;
        add_rounds(&coming, next, round + 1, self.until, asks)
    }

    /// Adds what a link is asked in these rounds, as [`Window::asks`] does, with its ticks counted. The plane stands at the start of a
    /// round. An `Err`, which comes for want of memory alone, may leave some of it added.
    pub fn asked(
        &self,
        alloc: Global,
        link: LinkNo,
        asked: &mut Vec<Asked>,
    ) -> Result<(), OutOfMemory>
        requires starts { self.now.at.ticked ≡ 0 }
        ensures { OnOk result (asks_in asked.new.items ≡ asks_in asked.old.items ++ window_at (link_number link) self.now.until self.now.at) }
    {
        let round = self.plane.round();
        if round >= self.until {
            return Ok(());
        }
        let own = &self.coming[usize::from(link.get())];
        let coming = sorted(alloc, own, round)?;
        add_asked(&coming, round, self.until, asked)
    }
}

// These flights by the links that they go to.
fn by_link(alloc: Global, flights: &[Flight]) -> Result<Vec<Vec<Flight>>, OutOfMemory>
    ensures { IfOk result (λ lists. AreByLink (λ own. own.items) flights.now lists.items) }
{
    let mut lists = no_flights(alloc)?;
    for flight in flights {
        list_flight(&mut lists, flight)?;
    }
    Ok(lists)
}

// An empty list for each link that there may be.
fn no_flights(alloc: Global) -> Result<Vec<Vec<Flight>>, OutOfMemory>
    ensures long { IfOk result (λ lists. length lists.items ≡ 32) }
    ensures empty { IfOk result (λ lists. Each (λ own. own.items ≡ []) lists.items) }
{
    let mut lists = Vec::new(alloc);
    for _ in 0..MOST_LINKS {
        lists.push(Vec::new(alloc))?;
    }
    Ok(lists)
}

// Adds a flight to the list of its link.
fn list_flight(lists: &mut [Vec<Flight>], flight: &Flight) -> Result<(), OutOfMemory>
    requires inside { link_number flight.now.to < length lists.old }
    ensures long { OnOk result (length lists.new ≡ length lists.old) }
    ensures others { OnOk result ((n : ℕ) → n ≢ link_number flight.now.to → slice_get lists.new n ≡ slice_get lists.old n) }
    ensures own { OnOk result ((old new : _) → slice_get lists.old (link_number flight.now.to) ≡ Some old → slice_get lists.new (link_number flight.now.to) ≡ Some new → new.items ≡ old.items ++ flight.now ∷ []) }
{
    lists[usize::from(flight.to.get())].push(*flight)?;
    Ok(())
}

// These flights, none of which is due before a round, in the order of the rounds in which they are due.
fn sorted(alloc: Global, flights: &[Flight], from: u64) -> Result<Vec<Flight>, OutOfMemory>
    requires { Each (IsDueFrom from) flights.now }
    ensures { IfOk result (λ sorted. AreLeft from flights.now sorted.items) }
{
    let mut sorted = Vec::with_capacity(alloc, flights.len())?;
    sorted.extend_from_slice(flights)?;
    sorted.sort_by_key(|flight| flight.round)?;
    Ok(sorted)
}

// Adds what is asked in whole rounds, from one until another begins. The flights from the place `first` on haven't arrived.
fn add_rounds(
    coming: &[Flight],
    first: usize,
    from: u64,
    until: u64,
    asks: &mut Vec<Ask>,
) -> Result<(), OutOfMemory>
    requires rounds { from ≤ until }
    requires first { first ≤ length coming.now }
    requires rise { Rise (drop first coming.now) }
    requires ahead { Each (IsDueFrom from) (drop first coming.now) }
    ensures { OnOk result (asks.new.items ≡ asks.old.items ++ rounds_in from (until - from) (drop first coming.now)) }
{
    let mut next = first;
    for round in from..until {
        next = add_arrivals(coming, next, round, asks)?;
        asks.push(Ask::Tick)?;
    }
    Ok(())
}

// Adds the tick of a round, where this many links have made it and this one hasn't.
fn add_tick(link: LinkNo, ticked: u32, asks: &mut Vec<Ask>) -> Result<(), OutOfMemory>
    ensures { OnOk result (asks.new.items ≡ asks.old.items ++ (if nat_lt (link_number link) ticked then [] else Tick ∷ [])) }
{
    if u32::from(link.get()) >= ticked {
        asks.push(Ask::Tick)?;
    }
    Ok(())
}

// Adds the arrivals of a round, and answers the place of the first flight that is due later. None from the place `first` on is due
// earlier.
fn add_arrivals(
    coming: &[Flight],
    first: usize,
    round: u64,
    asks: &mut Vec<Ask>,
) -> Result<usize, OutOfMemory>
    requires first { first ≤ length coming.now }
    requires rise { Rise (drop first coming.now) }
    requires ahead { Each (IsDueFrom round) (drop first coming.now) }
    ensures asks { OnOk result (asks.new.items ≡ asks.old.items ++ arrivals_in round (drop first coming.now)) }
    ensures next { IfOk result (λ next. next ≤ length coming.now) }
    ensures left { IfOk result (λ next. AreLeft (suc round) (drop first coming.now) (drop next coming.now)) }
{
    for place in first..coming.len() {
        let flight = coming[place];
        if flight.round != round {
            return Ok(place);
        }
        let packet = flight.packet;
        asks.push(Ask::Arrive { packet })?;
    }
    Ok(coming.len())
}

// Adds what is asked in whole rounds, from one until another begins, with its ticks counted. These flights are due in them.
fn add_asked(
    coming: &[Flight],
    from: u64,
    until: u64,
    asked: &mut Vec<Asked>,
) -> Result<(), OutOfMemory>
    requires rounds { from ≤ until }
    requires rise { Rise coming.now }
    requires ahead { Each (IsDueFrom from) coming.now }
    requires due { Each (IsDueBefore until) coming.now }
    ensures { OnOk result (asks_in asked.new.items ≡ asks_in asked.old.items ++ rounds_in from (until - from) coming.now) }
{
    let mut made = from;
    for flight in coming {
        count_ticks(made, flight.round, asked)?;
        made = flight.round;
        let packet = flight.packet;
        asked.push(Asked::Arrives(packet))?;
    }
    count_ticks(made, until, asked)
}

// Adds the ticks of the rounds from one until another begins.
fn count_ticks(from: u64, until: u64, asked: &mut Vec<Asked>) -> Result<(), OutOfMemory>
    requires { from ≤ until }
    ensures { OnOk result (asks_in asked.new.items ≡ asks_in asked.old.items ++ ticks (until - from)) }
{
    if from < until {
        asked.push(Asked::Ticks(until - from))?;
    }
    Ok(())
}
