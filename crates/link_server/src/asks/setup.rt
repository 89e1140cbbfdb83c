//! The asks of a setup at a link: reserve, relax and deny.
ghost use Rattle.std.specs.Prelude.{◌≡◌, ◌+◌, ◌<◌, ◌↔◌, ◌∷◌, List, length, IfOk, OnOk, OnErr};
ghost use Rattle.net_units.specs.Numbers.{level_number};
ghost use Rattle.link_steps.specs.declared.asks.Ask.TheVariants.{Relax as AskRelax, Deny as AskDeny};
ghost use Rattle.link_steps.specs.declared.replies.Entry.{Entry};
ghost use Rattle.link_steps.specs.declared.replies.Reply.TheVariants.{Offer};
ghost use Rattle.link_steps.specs.Admissible.{IsAdmissible};
ghost use Rattle.link_steps.specs.HopGuarantee.{HopGuarantee};
ghost use Rattle.link_steps.specs.Replies.{reply_to};
ghost use Rattle.link_steps.specs.Split.{whole};
ghost use Rattle.link_steps.specs.Account.{account_reply, account_after};
ghost use Rattle.link_steps.specs.Legal.{AskFits, ReserveFits, RelaxFits};
ghost use Rattle.link_server.specs.Asks.{IsOffer};
ghost use Rattle.link_server.specs.Held.{reservations_held, reach_at, MayReserve, IsBestFor};
ghost use Rattle.link_server.specs.State.{account_in, LinkStands};
ghost use Rattle.link_server.specs.Wants.{ask_for, offer_reply, MayHold};

use crate::link_state::LinkState;
use crate::table::rows::{need_of, reach_of};
use crate::table::served_row::{Offered, ServedRow, Wanted};
use link_steps::{Ask, Refusal, Reply};
use net_units::{ChanNo, Level, OutOfMemory};

impl LinkState {
    // Answers a reserve. An `Err` comes only where the reply would be an offer.
    pub(crate) fn reserve(&mut self, wanted: &Wanted) -> Result<Reply, OutOfMemory>
        requires fits { ReserveFits wanted.now.contract wanted.now.up_reach wanted.now.first }
        ensures shape { self.new.shape ≡ self.old.shape }
        ensures clock { self.new.clock ≡ self.old.clock }
        ensures reply { IfOk result (λ reply. reply ≡ account_reply (whole self.old.shape) (account_in self.old) (ask_for wanted.now)) }
        ensures kept { IfOk result (λ reply. account_in self.new ≡ account_after self.old.shape (account_in self.old) (ask_for wanted.now) reply) }
        ensures memory { OnErr result (account_in self.new ≡ account_in self.old) }
        ensures instead { OnErr result (IsOffer (account_reply (whole self.old.shape) (account_in self.old) (ask_for wanted.now))) }
    {
        match self.offer(wanted) {
            Ok(offer) => {
                self.hold(wanted, &offer)?;
                Ok(Reply::Offer {
                    level: offer.level,
                    reach: offer.reach,
                })
            }
            Err(refusal) => Ok(Reply::Refused(refusal)),
        }
    }

    /// Answers a reserve with an offer of this level and its reach: the largest level whose bound is within the ask's
    /// end-to-end bound or that of this level. The caller chooses the level, where these hold (`may`): the rows with the
    /// new one at it pass, its need is free, its channel holds no row here, and its packets are no wider than the link.
    ///
    /// Where the history is admissible, so is the next one, with all that is promised of admissible ones (`admissible`,
    /// `guaranteed`). The reply is the legal one exactly where this is the best level (`legal`). Want of memory leaves the
    /// link as it was.
    pub fn reserve_at(&mut self, ask: &Ask, level: Level) -> Result<Reply, OutOfMemory>
        requires fits { AskFits self.old.shape ask.now }
        requires may { MayReserve self.old.shape (reservations_held self.old) ask.now level }
        ensures shape { self.new.shape ≡ self.old.shape }
        ensures clock { self.new.clock ≡ self.old.clock }
        ensures offered { IfOk result (λ reply. reply ≡ Offer level (reach_at self.old.shape ask.now level)) }
        ensures entered { IfOk result (λ reply. (h : List Entry) → LinkStands self.old h → LinkStands self.new (record { ask = ask.now; reply = reply } ∷ h)) }
        ensures memory { OnErr result ((h : List Entry) → LinkStands self.old h → LinkStands self.new h) }
        ensures admissible { IfOk result (λ reply. (h : List Entry) → LinkStands self.old h → IsAdmissible self.old.shape h → IsAdmissible self.old.shape (record { ask = ask.now; reply = reply } ∷ h)) }
        ensures guaranteed { IfOk result (λ reply. (h : List Entry) → LinkStands self.old h → IsAdmissible self.old.shape h → HopGuarantee self.old.shape (record { ask = ask.now; reply = reply } ∷ h)) }
        ensures legal { IfOk result (λ reply. (h : List Entry) → LinkStands self.old h → (reply ≡ reply_to (whole self.old.shape) h ask.now) ↔ IsBestFor self.old.shape (reservations_held self.old) ask.now level) }
    {
        let Ask::Reserve {
            chan,
            contract,
            kind,
            delay,
            up_reach,
            first,
            next,
        } = ask
        else {
            unreachable!()
        };
        let wanted = Wanted {
            chan: *chan,
            contract: *contract,
            kind: *kind,
            delay: *delay,
            up_reach: *up_reach,
            first: *first,
            next: *next,
        };
        let reach = reach_of(&self.shape.bounds, *delay, level);
        self.hold(&wanted, &Offered { level, reach })?;
        Ok(Reply::Offer { level, reach })
    }

    // The offer that a reserve gets, or its refusal.
    fn offer(&self, wanted: &Wanted) -> Result<Offered, Refusal>
        requires fits { ReserveFits wanted.now.contract wanted.now.up_reach wanted.now.first }
        ensures reply { offer_reply result ≡ account_reply (whole self.now.shape) (account_in self.now) (ask_for wanted.now) }
        ensures may { IfOk result (MayHold self.now.shape (reservations_held self.now) wanted.now) }
    {
        let smax = wanted.contract.smax();
        if smax > self.shape.cap {
            return Err(Refusal::TooWide {
                smax: u64::from(smax),
                cap: u64::from(self.shape.cap),
            });
        }
        if let Some(row) = self.table.row_of(wanted.chan) {
            return Err(Refusal::Twice { phase: row.phase });
        }
        match self.table.best(&wanted.contract) {
            Err(none) => Err(Refusal::NoLevel {
                sum: none.sum,
                bound: none.bound,
            }),
            Ok(level) => {
                let reach = reach_of(&self.shape.bounds, wanted.delay, level);
                let need = need_of(&self.shape.bounds, &wanted.contract, wanted.up_reach, reach);
                let free = self.table.free();
                if need > free {
                    return Err(Refusal::NoBuffer { need, free });
                }
                Ok(Offered { level, reach })
            }
        }
    }

    // Holds what is wanted at what is offered. An `Err` leaves what is held.
    fn hold(&mut self, wanted: &Wanted, offer: &Offered) -> Result<(), OutOfMemory>
        requires fits { ReserveFits wanted.now.contract wanted.now.up_reach wanted.now.first }
        requires may { MayHold self.old.shape (reservations_held self.old) wanted.now offer.now }
        ensures shape { self.new.shape ≡ self.old.shape }
        ensures clock { self.new.clock ≡ self.old.clock }
        ensures kept { OnOk result (account_in self.new ≡ account_after self.old.shape (account_in self.old) (ask_for wanted.now) (Offer offer.now.level offer.now.reach)) }
        ensures memory { OnErr result (account_in self.new ≡ account_in self.old) }
    {
        let row = ServedRow::new(self.alloc, wanted, offer)?;
        let places = self.table.places_with(&row) + u64::from(self.shape.best) + 1;
        self.queue.reserve(places as usize)?;
        self.table.add(row)?;
        self.due = 0;
        Ok(())
    }

    // Commits a tentative reservation.
    pub(crate) fn relax(&mut self, chan: ChanNo, level: Level, up_bound: u64) -> Reply
        requires fits { RelaxFits (length self.old.shape.bounds) (level_number level) up_bound }
        ensures shape { self.new.shape ≡ self.old.shape }
        ensures clock { self.new.clock ≡ self.old.clock }
        ensures reply { result ≡ account_reply (whole self.old.shape) (account_in self.old) (AskRelax chan level up_bound) }
        ensures kept { account_in self.new ≡ account_after self.old.shape (account_in self.old) (AskRelax chan level up_bound) result }
    {
        let Some(row) = self.table.row_of(chan) else {
            return Reply::Refused(Refusal::NoSuch);
        };
        if let Some(refusal) = row.not_tentative() {
            return Reply::Refused(refusal);
        }
        if let Some(refusal) = row.unfit(level, up_bound) {
            return Reply::Refused(refusal);
        }
        self.due = 0;
        self.table.commit(chan, level, up_bound);
        Reply::Relaxed { clock: self.clock }
    }

    // Gives a tentative reservation back.
    pub(crate) fn deny(&mut self, chan: ChanNo) -> Reply
        ensures shape { self.new.shape ≡ self.old.shape }
        ensures clock { self.new.clock ≡ self.old.clock }
        ensures reply { result ≡ account_reply (whole self.old.shape) (account_in self.old) (AskDeny chan) }
        ensures kept { account_in self.new ≡ account_after self.old.shape (account_in self.old) (AskDeny chan) result }
    {
        let Some(row) = self.table.row_of(chan) else {
            return Reply::Refused(Refusal::NoSuch);
        };
        if let Some(refusal) = row.not_tentative() {
            return Reply::Refused(refusal);
        }
        self.due = 0;
        self.table.remove(chan);
        Reply::Denied
    }
}
