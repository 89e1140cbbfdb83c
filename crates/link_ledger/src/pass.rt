//! The pass of an actor.
ghost use Rattle.std.specs.Prelude.{◌≡◌, ℕ, ◌≤◌, [], true, false, length, IfSome, IsSome, ◌↔◌, None, List};

use crate::entries::OwnEntry;
use net_units::ActorNo;
use std::alloc::Global;
use std::marker::Model;
use step_stamp::{PassSeat, Stamps};

/// A caller's token: its actor, its seat, and the entries of the steps that it has made, its own entries. While none of its
/// steps has met want of memory, the marks of these are all that its seat has drawn, and the seat knows each of them at
/// its place in its link's list.
#[derive(Drop)]
pub struct Pass {
    pub(crate) actor: ActorNo,
    pub(crate) seat: Option<PassSeat>,
    pub(crate) own: Vec<OwnEntry>,
    pub(crate) spent: bool,
}

impl Model for Pass {
    ghost use Rattle.link_ledger.specs.Tokens.{Token, token_of, KeepsToken};

    ghost Value = { Token };

    ghost view = { λ p. token_of p.actor p.seat p.own.items p.spent };

    ghost invariant = { λ p. KeepsToken p.actor p.seat p.own.items p.spent };
}

impl Pass {
    ghost use Rattle.step_stamp.specs.Seats.{stamps_table, pass_table, pass_view};
    ghost use Rattle.step_stamp.specs.Views.{saw};
    ghost use Rattle.link_steps.specs.Split.{Link};
    ghost use Rattle.link_ledger.specs.Tokens.{OwnsAt, AnsweredAt};

    /// A pass with this seat, which has drawn nothing (`drawn`), and so knows no mark of its actor. It owns its entries, of
    /// which there are none, at every link (`owns`).
    pub fn new(alloc: Global, seat: PassSeat) -> Pass
        requires drawn { (pass_view seat).drawn ≡ [] }
        ensures actor { result.actor ≡ seat.actor }
        ensures seat { (result.has_seat ≡ true) × (result.table ≡ pass_table seat) × (result.view ≡ pass_view seat) }
        ensures own { result.own ≡ [] }
        ensures spent { result.spent ≡ false }
        ensures owns { (links : List Link) (l : ℕ) → OwnsAt links l result }
    {
        Pass {
            actor: seat.actor(),
            seat: Some(seat),
            own: Vec::new(alloc),
            spent: false,
        }
    }

    /// Its actor.
    pub fn actor(&self) -> ActorNo
        ensures { result ≡ self.now.actor }
    {
        self.actor
    }

    /// The entries of its steps, in the order in which it made them.
    pub fn own(&self) -> &[OwnEntry]
        ensures { result.now ≡ self.now.own }
    {
        self.own.as_slice()
    }

    /// Whether a step of it has met want of memory.
    pub fn is_spent(&self) -> bool
        ensures { result ≡ self.now.spent }
    {
        self.spent
    }

    /// The number of stamps that its seat has drawn, and 0 once the seat is given up.
    pub fn drawn(&self) -> u64
        ensures { result ≡ length self.now.view.drawn }
    {
        match &self.seat {
            Some(seat) => seat.drawn(),
            None => 0,
        }
    }

    /// How many stamps were drawn by all so far: at least every stamp that the pass had seen. This number then counts as seen.
    pub fn seen(&mut self, stamps: &Stamps) -> u64
        requires seat { self.old.has_seat ≡ true }
        requires table { self.old.table ≡ stamps_table stamps.now }
        ensures least { self.old.view.seen ≤ result }
        ensures saw { self.new ≡ record self.old { view = saw result self.old.view } }
    {
        match &mut self.seat {
            Some(seat) => seat.seen(stamps),
            None => unreachable!(),
        }
    }

    /// A law, and no work: while the pass has its seat and isn't spent, it owns its entries at each link where each of them
    /// has the reply that the rules give after the asks that its seat knows before it. `LockedLink::step` asks for that.
    pub fn owns_answered(&self)
        requires seat { self.now.has_seat ≡ true }
        requires unspent { self.now.spent ≡ false }
        ensures { (links : List Link) (l : ℕ) → AnsweredAt links l self.now → OwnsAt links l self.now }
    {
        // The field is read for its invariant alone.
        let _spent = self.spent;
    }

    /// Takes the seat out, and keeps the own entries: None exactly where it was given up before.
    pub fn give_seat(&mut self) -> Option<PassSeat>
        ensures given { IsSome result ↔ (self.old.has_seat ≡ true) }
        ensures seat { IfSome result (λ seat. (seat.actor ≡ self.old.actor) × (pass_table seat ≡ self.old.table) × (pass_view seat ≡ self.old.view)) }
        ensures kept { (self.new.actor ≡ self.old.actor) × (self.new.own ≡ self.old.own) × (self.new.spent ≡ self.old.spent) }
        ensures gone { self.new.has_seat ≡ false }
    {
        self.seat.take()
    }
}
