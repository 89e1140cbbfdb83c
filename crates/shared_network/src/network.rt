//! The network, its opening, and one step of a pass.
ghost use Rattle.std.specs.Prelude.{◌≡◌, ℕ, ◌^◌, ◌<◌, ◌≤◌, ◌+◌, ◌-◌, [], ◌∷◌, ◌++◌, length, map, IfOk, OnOk, OnErr, true};
ghost use Rattle.net_units.specs.Numbers.{link_number, actor_number, channel_number};
ghost use Rattle.net_units.specs.declared.numbers.ChanNo.{ChanNo};
ghost use Rattle.link_steps.specs.Lists.{Each};
ghost use Rattle.link_steps.specs.Split.{SplitFits};
ghost use Rattle.step_stamp.specs.Lists.{up_to};
ghost use Rattle.step_stamp.specs.Seats.{stamps_table, seat_link};
ghost use Rattle.step_stamp.specs.Opening.{AreLinks, ArePasses};
ghost use Rattle.step_stamp.specs.Views.{saw};
ghost use Rattle.setup_protocol.specs.declared.request.Request.{Request};
ghost use Rattle.channel_laws.specs.Asks.{IsOff};
ghost use Rattle.shared_network.specs.Calls.{HasNone, IsEstablished};
ghost use Rattle.link_ledger.specs.Owners.{OwnsAsk, NextBelow};
ghost use Rattle.link_ledger.specs.Tokens.{Steps, last_seen, stamps_drawn};
ghost use Rattle.shared_network.specs.Added.{Adds, AddsAbove, IsSamePass, IsLost};
ghost use Rattle.shared_network.specs.Ready.{MayStep, PassGoesOn, IsNew};
ghost use Rattle.shared_network.specs.Shifts.{KeepsContract};
ghost use Rattle.shared_network.specs.Sight.{FitsAt, IsSend, IsUnusedLink};

use link_ledger::{Home, LockedLink, Pass, StepFault};
use link_steps::{Ask, LinkStep, Reply};
use net_units::{ActorNo, Gate, LinkNo, OutOfMemory};
use std::alloc::Global;
use std::marker::Model;
use std::sync::Wait;
use step_stamp::{LinkSeat, PassSeat, Stamps};

/// The links of a network, each behind a lock, and the stamps of their steps. A contract sees its links as the rules see them, and
/// the owner of each channel, which no call changes.
#[derive(Drop)]
pub struct Network<L: LinkStep, H: Home> {
    pub(crate) stamps: Stamps,
    pub(crate) links: Vec<LockedLink<L, H>>,
}

impl<L: LinkStep, H: Home> Model for Network<L, H> {
    ghost use Rattle.std.specs.Prelude.{map};
    ghost use Rattle.net_units.specs.Numbers.{link_number};
    ghost use Rattle.step_stamp.specs.Seats.{stamps_table};
    ghost use Rattle.shared_network.specs.Sight.{Sight, IsNetwork};

    ghost Value = { Sight };

    ghost view = { λ n. record { links = H.links; owners = H.owners } };

    ghost invariant = { λ n. IsNetwork H.table H.links (stamps_table n.stamps) (map (λ l. link_number l.link) n.links.items) };
}

impl<L: LinkStep + Send, H: Home> Network<L, H> {
    /// A network of these links, in their order, with a pass for each actor, in the order of the actors. `opened` is what
    /// `Stamps::open` gave for 1 to 32 links and 1 to 65 actors, with nothing done to it since (`seats`, `passes`). Each link stands
    /// for the empty history (`stand`). `owners` gives the actor of each channel, by the channels' numbers. All these are as `H`
    /// says. Each pass has its seat and has drawn nothing. An `Err` comes only for want of memory.
    pub fn open(
        alloc: Global,
        opened: (Stamps, Vec<LinkSeat>, Vec<PassSeat>),
        links: Vec<L>,
        owners: Vec<ActorNo>,
    ) -> Result<(Network<L, H>, Vec<Pass>), OutOfMemory>
        requires table { stamps_table opened.0 ≡ H.table }
        requires seats { AreLinks H.table (length opened.2.items) (length H.links) opened.1.items }
        requires passes { ArePasses H.table (length opened.2.items) (length opened.2.items) opened.2.items }
        requires most { length H.links ≤ 32 }
        requires links { map L.link_of links.items ≡ H.links }
        requires stand { Each (λ link. L.stands_for link []) links.items }
        requires owners { owners.items ≡ H.owners }
        ensures actors { IfOk result (λ made. map (λ pass. actor_number pass.actor) made.1.items ≡ up_to (length opened.2.items)) }
        ensures passes { IfOk result (λ made. Each (IsNew H.table H.owners H.links (length opened.2.items)) made.1.items) }
    {
        let (stamps, seats, pass_seats) = opened;
        splits_fit::<L, H>(&links);
        let links = lock_all(alloc, links, seats, &owners)?;
        let passes = passes_of::<H>(alloc, pass_seats)?;
        Ok((Network { stamps, links }, passes))
    }

    // One step of the pass at a link of the network.
    pub(crate) fn step_at<W: Wait, G: Gate>(
        &self,
        rt: &W,
        pass: &mut Pass,
        gate: &G,
        link: LinkNo,
        ask: &Ask,
    ) -> Result<Reply, StepFault>
        requires pass { MayStep H.table H.owners H.links pass.old }
        requires few { stamps_drawn pass.old < 2 ^ 40 }
        requires link { link_number link < length H.links }
        requires fits { FitsAt H.links (link_number link) ask.now }
        requires owned { OwnsAsk H.owners pass.old.actor ask.now }
        requires next { NextBelow (length H.links) ask.now }
        ensures made { IfOk result (λ reply. Steps H.links (link_number link) ask.now pass.old pass.new reply) }
        ensures drew { OnOk result (stamps_drawn pass.new ≡ stamps_drawn pass.old + 1) }
        ensures ready { OnOk result (PassGoesOn H.table H.owners H.links pass.old pass.new) }
        ensures lost { OnErr result (IsLost pass.new) }
        ensures kept { OnErr result (pass.new.own ≡ pass.old.own) }
        ensures same { IsSamePass pass.old pass.new }
        ensures splits { Each SplitFits H.links }
    {
        self.links[usize::from(link.get())].step(rt, &self.stamps, pass, gate, ask)
    }

    /// Sends packets at a link of the network: those of a channel that the pass's actor owns, by a submit, or best-effort ones. It is
    /// one ask, whose reply is the answer, with a stamp above all that the pass had seen (`later`). An established channel stays established, and a channel that no entry names stays so if
    /// the ask doesn't name it (`unopened`). Packets are planned at the first hop of such a channel only where its contract allows
    /// their size (`small`). The call may wait for the link. After want of memory the pass is spent, and the link's journal may have
    /// the entry.
    ///
    /// The pass has its seat, isn't spent (`pass`) and has drawn fewer than 2^40 - 64 stamps, and the conditions on an ask
    /// hold.
    pub fn submit<W: Wait, G: Gate>(
        &self,
        rt: &W,
        pass: &mut Pass,
        gate: &G,
        link: LinkNo,
        ask: &Ask,
    ) -> Result<Reply, StepFault>
        requires pass { MayStep H.table H.owners H.links pass.old }
        requires few { stamps_drawn pass.old < 2 ^ 40 - 64 }
        requires link { link_number link < length H.links }
        requires send { IsSend ask.now }
        requires fits { FitsAt H.links (link_number link) ask.now }
        requires owned { OwnsAsk H.owners pass.old.actor ask.now }
        ensures made { IfOk result (λ reply. Adds pass.old pass.new (record { link = link; ask = ask.now; reply = reply } ∷ [])) }
        ensures small { IfOk result (λ reply. KeepsContract link ask.now reply pass.old.own) }
        ensures established { OnOk result ((request : Request) → IsEstablished request pass.old.own → IsEstablished request pass.new.own) }
        ensures unopened { OnOk result ((chan : ChanNo) → IsOff (channel_number chan) ask.now → HasNone chan pass.old.own → HasNone chan pass.new.own) }
        ensures drew { OnOk result (stamps_drawn pass.new ≡ stamps_drawn pass.old + 1) }
        ensures later { OnOk result (AddsAbove (last_seen pass.old) pass.old pass.new) }
        ensures ready { OnOk result (PassGoesOn H.table H.owners H.links pass.old pass.new) }
        ensures lost { OnErr result (IsLost pass.new) }
        ensures kept { OnErr result (pass.new.own ≡ pass.old.own) }
        ensures same { IsSamePass pass.old pass.new }
    {
        self.step_at(rt, pass, gate, link, ask)
    }

    /// How many stamps all passes have drawn so far: at least every stamp that the pass had seen. This number is then the last that
    /// the pass has seen, and nothing else of the pass changes. The call takes no lock and no memory.
    pub fn steps_seen(&self, pass: &mut Pass) -> u64
        requires pass { (pass.old.has_seat ≡ true) × (pass.old.table ≡ H.table) }
        ensures least { last_seen pass.old ≤ result }
        ensures counts { last_seen pass.new ≡ result }
        ensures saw { pass.new ≡ record pass.old { view = saw result pass.old.view } }
        ensures ready { MayStep H.table H.owners H.links pass.old → PassGoesOn H.table H.owners H.links pass.old pass.new }
    {
        pass.seen(&self.stamps)
    }
}

// The splits of links that stand for the empty history fit them, as a link's law says.
fn splits_fit<L: LinkStep, H: Home>(links: &Vec<L>)
    requires links { map L.link_of links.now.items ≡ H.links }
    requires stand { Each (λ link. L.stands_for link []) links.now.items }
    ensures { Each SplitFits H.links }
{
    let _ = links;
}

// Each link behind a lock, with its seat.
fn lock_all<L: LinkStep + Send, H: Home>(
    alloc: Global,
    links: Vec<L>,
    seats: Vec<LinkSeat>,
    owners: &Vec<ActorNo>,
) -> Result<Vec<LockedLink<L, H>>, OutOfMemory>
    requires numbers { map seat_link seats.items ≡ up_to (length H.links) }
    requires unused { Each (IsUnusedLink H.table) seats.items }
    requires most { length H.links ≤ 32 }
    requires links { map L.link_of links.items ≡ H.links }
    requires stand { Each (λ link. L.stands_for link []) links.items }
    requires owners { owners.now.items ≡ H.owners }
    ensures numbers { IfOk result (λ made. map (λ l. link_number l.link) made.items ≡ up_to (length H.links)) }
{
    let count = links.len() as u32;
    let mut locked = Vec::with_capacity(alloc, links.len())?;
    let mut seats = seats.into_iter();
    for link in links {
        let Some(seat) = seats.next() else {
            unreachable!()
        };
        locked.push(LockedLink::open(alloc, link, seat, owners.clone()?, count)?)?;
    }
    Ok(locked)
}

// A pass for each of these seats, which were never used.
fn passes_of<H: Home>(alloc: Global, seats: Vec<PassSeat>) -> Result<Vec<Pass>, OutOfMemory>
    requires { ArePasses H.table (length seats.items) (length seats.items) seats.items }
    ensures actors { IfOk result (λ made. map (λ pass. actor_number pass.actor) made.items ≡ up_to (length seats.items)) }
    ensures new { IfOk result (λ made. Each (IsNew H.table H.owners H.links (length seats.items)) made.items) }
{
    let mut passes = Vec::with_capacity(alloc, seats.len())?;
    for seat in seats {
        passes.push(Pass::new(alloc, seat))?;
    }
    Ok(passes)
}
