//! What lies under the lock of a link.
ghost use Rattle.std.specs.Prelude.{◌≡◌, ℕ, ◌^◌, ◌<◌, ◌+◌, ◌++◌, ◌∷◌, [], length, IfOk, OnErr, Some, slice_get};
ghost use Rattle.net_units.specs.Numbers.{link_number};
ghost use Rattle.link_steps.specs.Legal.{AskFits};
ghost use Rattle.step_stamp.specs.Seats.{stamps_table, pass_table, pass_view};
ghost use Rattle.step_stamp.specs.Views.{known_of};
ghost use Rattle.link_ledger.specs.Owners.{OwnsAsk, NextBelow};
ghost use Rattle.link_ledger.specs.Own.{Acted, DrewOneAtMost, EnteredOneAtMost, own_entry};
ghost use Rattle.link_ledger.specs.Tokens.{IsLink};

use crate::entries::{Entry, OwnEntry};
use crate::home::Home;
use link_steps::{Ask, LinkStep};
use net_units::{LinkNo, OutOfMemory};
use std::alloc::Global;
use std::marker::{Model, PhantomData};
use step_stamp::{LinkSeat, PassSeat, Stamps};

/// A link, its seat and its journal, in order.
#[derive(Drop)]
pub struct Held<L: LinkStep, H: Home> {
    link: L,
    seat: LinkSeat,
    entries: Vec<Entry>,
    home: PhantomData<H>,
}

impl<L: LinkStep, H: Home> Model for Held<L, H> {
    ghost use Rattle.std.specs.Prelude.{◌≡◌, length};
    ghost use Rattle.step_stamp.specs.Seats.{link_table, seat_link, list_of, link_view};
    ghost use Rattle.link_ledger.specs.Order.{HeldLink, IsInOrder};
    ghost use Rattle.link_ledger.specs.Tokens.{IsLink};

    ghost Value = { HeldLink };

    ghost view = { λ s. record { number = seat_link s.seat; rules = L.link_of s.link; entries = s.entries.items; list = list_of s.seat; seen = (link_view s.seat).seen; table = link_table s.seat } };

    ghost invariant = { λ s. (link_table s.seat ≡ H.table) × IsLink H.links (seat_link s.seat) (L.link_of s.link) × IsInOrder (L.stands_for s.link) H.owners (length H.links) (record { number = seat_link s.seat; rules = L.link_of s.link; entries = s.entries.items; list = list_of s.seat; seen = (link_view s.seat).seen; table = link_table s.seat }) };
}

impl<L: LinkStep, H: Home> Held<L, H> {
    ghost use Rattle.step_stamp.specs.Seats.{link_table, seat_link, list_of, link_view};
    ghost use Rattle.link_ledger.specs.Order.{IsOrdered, AreInOrder};

    /// A link of the empty history with an empty seat.
    pub fn new(alloc: Global, link: L, seat: LinkSeat) -> Held<L, H>
        requires table { link_table seat ≡ H.table }
        requires rules { IsLink H.links (seat_link seat) (L.link_of link) }
        requires stands { L.stands_for link [] }
        requires empty { list_of seat ≡ [] }
    {
        Held {
            link,
            seat,
            entries: Vec::new(alloc),
            home: PhantomData,
        }
    }

    /// The journal's entries and the seat.
    pub fn into_parts(self) -> (Vec<Entry>, LinkSeat)
        ensures entries { result.0.items ≡ self.entries }
        ensures seat { (link_table result.1 ≡ self.table) × (seat_link result.1 ≡ self.number) × (list_of result.1 ≡ self.list) × ((link_view result.1).seen ≡ self.seen) }
        ensures table { self.table ≡ H.table }
        ensures rules { IsLink H.links self.number self.rules }
        ensures order { IsOrdered H.owners (length H.links) self }
    {
        let Held {
            link: _,
            seat,
            entries,
            home: _,
        } = self;
        (entries, seat)
    }

    /// The number of the link.
    pub fn number(&self) -> LinkNo
        ensures number { link_number result ≡ self.now.number }
        ensures rules { IsLink H.links self.now.number self.now.rules }
    {
        self.seat.link()
    }

    /// Makes one step for this pass, and appends its entry to the journal. After want of memory the journal is unchanged or
    /// has the entry at its end (`journal`), and the link stands for it in both cases, as the invariant says.
    pub fn act(
        &mut self,
        stamps: &Stamps,
        pass: &mut PassSeat,
        ask: &Ask,
    ) -> Result<OwnEntry, OutOfMemory>
        requires table { stamps_table stamps.now ≡ H.table }
        requires pass { pass_table pass.old ≡ stamps_table stamps.now }
        requires few { length (pass_view pass.old).drawn < 2 ^ 40 }
        requires fits { AskFits self.old.rules.shape ask.now }
        requires owned { OwnsAsk H.owners pass.old.actor ask.now }
        requires next { NextBelow (length H.links) ask.now }
        ensures acted { IfOk result (λ e. Acted self.old.rules self.old.number pass.old.actor ask.now (pass_view pass.old) (pass_view pass.new) self.old.entries e) }
        ensures entered { IfOk result (λ e. self.new.entries ≡ self.old.entries ++ own_entry pass.old.actor e ∷ []) }
        ensures order { IfOk result (λ _. AreInOrder H.owners (length H.links) (known_of self.old.number (pass_view pass.new))) }
        ensures same { (pass_table pass.new ≡ pass_table pass.old) × (pass.new.actor ≡ pass.old.actor) }
        ensures memory { OnErr result (DrewOneAtMost (pass_view pass.old) (pass_view pass.new)) }
        ensures journal { OnErr result (EnteredOneAtMost pass.old.actor ask.now self.old.entries self.new.entries) }
    {
        self.entries.reserve(1)?;
        pass.meet(stamps, &mut self.seat)?;
        let ticket = pass.draw(stamps, &self.seat, ask)?;
        let reply = self.link.step(ask)?;
        let stamp = ticket.stamp();
        self.seat.enter(stamps, ticket);
        let place = self.entries.len() as u64 + 1;
        self.entries.push_reserved(Entry {
            stamp,
            actor: pass.actor(),
            ask: *ask,
            reply,
        });
        pass.meet(stamps, &mut self.seat)?;
        Ok(OwnEntry {
            link: self.seat.link(),
            place,
            stamp,
            ask: *ask,
            reply,
        })
    }
}
