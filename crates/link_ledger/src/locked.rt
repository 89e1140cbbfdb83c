//! A link behind a lock.
ghost use Rattle.std.specs.Prelude.{◌≡◌, ℕ, ◌^◌, ◌<◌, [], length, map, IfOk, OnErr, Some, List, true, false};
ghost use Rattle.std.specs.Sync.Mutex.{mutex_guard_value};
ghost use Rattle.net_units.specs.Numbers.{link_number};
ghost use Rattle.link_steps.specs.Legal.{AskFits};
ghost use Rattle.link_steps.specs.Split.{Link};
ghost use Rattle.step_stamp.specs.Seats.{stamps_table, pass_table, pass_view};
ghost use Rattle.step_stamp.specs.Views.{known_of};
ghost use Rattle.link_ledger.specs.Owners.{OwnsAsk, NextBelow};
ghost use Rattle.link_ledger.specs.Own.{DrewOneAtMost};
ghost use Rattle.link_ledger.specs.Tokens.{IsLink, shape_at, OwnsAt, ActedAt, Steps};

use crate::entries::{Entries, Journal, OwnEntry};
use crate::held::Held;
use crate::home::Home;
use crate::pass::Pass;
use link_steps::{Ask, LinkShape, LinkStep, Reply};
use net_units::{ActorNo, Gate, LinkNo, OutOfMemory};
use std::alloc::Global;
use std::sync::{Mutex, MutexGuard, Wait};
use step_stamp::{LinkSeat, PassSeat, Stamps};

/// Why a step wasn't answered.
#[derive(Clone, Copy, Debug, PartialEq, Eq)]
pub enum StepFault {
    /// Out of memory. The pass is spent.
    Memory,
}

/// A link, its journal and its seat behind a lock, with the link's number and shape beside it.
#[derive(Drop)]
pub struct LockedLink<L: LinkStep, H: Home> {
    held: Mutex<Held<L, H>>,
    link: LinkNo,
    shape: LinkShape,
    ghost shape_is: { shape_at H.links (link_number link) ≡ Some shape },
}

impl<L: LinkStep + Send, H: Home> LockedLink<L, H> {
    ghost use Rattle.link_steps.specs.Journals.{IsLegalJournal};
    ghost use Rattle.net_units.specs.declared.numbers.ActorNo.{ActorNo};
    ghost use Rattle.step_stamp.specs.Seats.{link_table, seat_link, list_of, link_view};
    ghost use Rattle.link_ledger.specs.Journals.{marks_in, done_in};
    ghost use Rattle.link_ledger.specs.Order.{IsOrdered, AreInOrder};

    /// Puts a link behind a lock. It stands for the empty history (`stands`), and its seat's list is empty.
    /// What is given is as `H` says: the stamps, the link of this number, the actor of each channel by the
    /// channels' numbers, and the number of links. The last two are for contracts alone and aren't kept.
    pub fn open(
        alloc: Global,
        link: L,
        seat: LinkSeat,
        owners: Vec<ActorNo>,
        links: u32,
    ) -> Result<LockedLink<L, H>, OutOfMemory>
        requires table { link_table seat ≡ H.table }
        requires rules { IsLink H.links (seat_link seat) (L.link_of link) }
        requires owners { owners.items ≡ H.owners }
        requires links { links ≡ length H.links }
        requires stands { L.stands_for link [] }
        requires empty { list_of seat ≡ [] }
        ensures shape { IfOk result (λ locked. locked.shape ≡ (L.link_of link).shape) }
        ensures link { IfOk result (λ locked. locked.link ≡ seat.link) }
    {
        let _ = (owners, links);
        let shape = link.shape();
        let number = seat.link();
        Ok(LockedLink {
            held: Mutex::new(Held::new(alloc, link, seat)),
            link: number,
            shape,
        })
    }

    /// The journal and the link's seat, once no thread shares the link. The seat's list is the stamps, actors and asks of the
    /// journal's entries, which are one legal history of the link.
    pub fn into_journal(self) -> (Journal, LinkSeat)
        ensures link { result.0.link ≡ result.1.link }
        ensures table { link_table result.1 ≡ H.table }
        ensures marks { marks_in result.0.entries ≡ list_of result.1 }
        ensures journal { (rules : Link) × IsLink H.links (seat_link result.1) rules × IsLegalJournal rules (map done_in result.0.entries) × IsOrdered H.owners (length H.links) (record { number = seat_link result.1; rules = rules; entries = result.0.entries; list = list_of result.1; seen = (link_view result.1).seen; table = link_table result.1 }) }
    {
        let LockedLink {
            held,
            link: _,
            shape: _,
        } = self;
        let (entries, seat) = held.into_inner().into_parts();
        let journal = Journal {
            link: seat.link(),
            entries: Entries::new(entries),
        };
        (journal, seat)
    }

    /// The link's shape. It takes no lock.
    pub fn shape(&self) -> LinkShape
        ensures { result ≡ self.now.shape }
    {
        self.shape
    }

    /// Makes one step of this pass under the lock, which it may wait for: the link's reply is that of the rules after the
    /// journal so far, and the entry is the journal's next one and the pass's last. All that the pass had seen of the link
    /// begins that journal. The stamp is above every stamp that the pass had seen, and above those of all marks that it knew
    /// of any link (`made`). What it then knows of the link has rising stamps, each ask in it was asked by right, and each
    /// reserve's next link is one of the network's (`order`).
    ///
    /// The pass has to have its seat (`seat`), not be spent, own its entries at this link (`own`), as a new pass does and
    /// one that has made its steps so, and have drawn fewer than 2^40 stamps. Its actor has to own the channel that is
    /// asked about, a reserve's next link has to be one of the network's, and the conditions on an ask have to hold. After
    /// want of memory the pass is spent, with its own entries as they were, and it has drawn at most one stamp more.
    pub fn step<W: Wait, G: Gate>(
        &self,
        rt: &W,
        stamps: &Stamps,
        pass: &mut Pass,
        gate: &G,
        ask: &Ask,
    ) -> Result<Reply, StepFault>
        requires table { stamps_table stamps.now ≡ H.table }
        requires seat { (pass.old.has_seat ≡ true) × (pass.old.table ≡ stamps_table stamps.now) }
        requires unspent { pass.old.spent ≡ false }
        requires own { OwnsAt H.links (link_number self.now.link) pass.old }
        requires few { length pass.old.view.drawn < 2 ^ 40 }
        requires fits { AskFits self.now.shape ask.now }
        requires owned { OwnsAsk H.owners pass.old.actor ask.now }
        requires next { NextBelow (length H.links) ask.now }
        ensures made { IfOk result (λ reply. Steps H.links (link_number self.now.link) ask.now pass.old pass.new reply) }
        ensures order { IfOk result (λ _. AreInOrder H.owners (length H.links) (known_of (link_number self.now.link) pass.new.view)) }
        ensures memory { OnErr result ((pass.new.spent ≡ true) × (pass.new.own ≡ pass.old.own)) }
        ensures lost { OnErr result (DrewOneAtMost pass.old.view pass.new.view) }
        ensures same { (pass.new.actor ≡ pass.old.actor) × (pass.new.has_seat ≡ true) × (pass.new.table ≡ pass.old.table) }
    {
        if pass.own.reserve(1).is_err() {
            pass.spent = true;
            return Err(StepFault::Memory);
        }
        let Some(mut seat) = pass.seat.take() else {
            unreachable!()
        };
        let made = self.locked(rt, stamps, &mut seat, gate, ask);
        pass.seat = Some(seat);
        match made {
            Ok(entry) => {
                let reply = entry.reply;
                pass.own.push_reserved(entry);
                Ok(reply)
            }
            Err(_) => {
                pass.spent = true;
                Err(StepFault::Memory)
            }
        }
    }

    // One step under the lock, and the gate's call once it is released.
    fn locked<W: Wait, G: Gate>(
        &self,
        rt: &W,
        stamps: &Stamps,
        seat: &mut PassSeat,
        gate: &G,
        ask: &Ask,
    ) -> Result<OwnEntry, OutOfMemory>
        requires table { stamps_table stamps.now ≡ H.table }
        requires pass { pass_table seat.old ≡ stamps_table stamps.now }
        requires few { length (pass_view seat.old).drawn < 2 ^ 40 }
        requires fits { AskFits self.now.shape ask.now }
        requires owned { OwnsAsk H.owners seat.old.actor ask.now }
        requires next { NextBelow (length H.links) ask.now }
        ensures acted { IfOk result (λ e. ActedAt H.links (link_number self.now.link) seat.old.actor ask.now (pass_view seat.old) (pass_view seat.new) e) }
        ensures order { IfOk result (λ _. AreInOrder H.owners (length H.links) (known_of (link_number self.now.link) (pass_view seat.new))) }
        ensures same { (pass_table seat.new ≡ pass_table seat.old) × (seat.new.actor ≡ seat.old.actor) }
        ensures memory { OnErr result (DrewOneAtMost (pass_view seat.old) (pass_view seat.new)) }
    {
        let actor = seat.actor();
        let made = self.acted(rt, stamps, seat, gate, ask);
        gate.after(self.link, actor);
        made
    }

    // The step itself.
    fn acted<W: Wait, G: Gate>(
        &self,
        rt: &W,
        stamps: &Stamps,
        seat: &mut PassSeat,
        gate: &G,
        ask: &Ask,
    ) -> Result<OwnEntry, OutOfMemory>
        requires table { stamps_table stamps.now ≡ H.table }
        requires pass { pass_table seat.old ≡ stamps_table stamps.now }
        requires few { length (pass_view seat.old).drawn < 2 ^ 40 }
        requires fits { AskFits self.now.shape ask.now }
        requires owned { OwnsAsk H.owners seat.old.actor ask.now }
        requires next { NextBelow (length H.links) ask.now }
        ensures acted { IfOk result (λ e. ActedAt H.links (link_number self.now.link) seat.old.actor ask.now (pass_view seat.old) (pass_view seat.new) e) }
        ensures order { IfOk result (λ _. AreInOrder H.owners (length H.links) (known_of (link_number self.now.link) (pass_view seat.new))) }
        ensures same { (pass_table seat.new ≡ pass_table seat.old) × (seat.new.actor ≡ seat.old.actor) }
        ensures memory { OnErr result (DrewOneAtMost (pass_view seat.old) (pass_view seat.new)) }
    {
        let mut held = self.taken(rt);
        gate.within(self.link, seat.actor());
        held.act(stamps, seat, ask)
    }

    // The lock, taken with the link under it that has the number beside it. That one lies there the first time, since no call
    // moves a link from its lock; but of what lies under a lock only its type is known, so the lock is taken again until it
    // does.
    fn taken<W: Wait>(&self, rt: &W) -> MutexGuard<'_, Held<L, H>>
        ensures number { (mutex_guard_value result).number ≡ link_number self.now.link }
        ensures rules { IsLink H.links (link_number self.now.link) (mutex_guard_value result).rules }
    {
        for _ in rt.forever() {
            let held = self.held.lock(rt);
            if held.number().get() == self.link.get() {
                return held;
            }
        }
        unreachable!()
    }
}
