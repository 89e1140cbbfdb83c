//! A link that is split between groups of channels.
ghost use Rattle.std.specs.Prelude.{◌≡◌, ◌^◌, ◌<◌, ◌≤◌, ◌∷◌, [], List, length, map, IfOk, OnErr, IsOk};
ghost use Rattle.link_steps.specs.Split.{Link, SplitFits};
ghost use Rattle.link_server.specs.Held.{reservations_held};
ghost use Rattle.link_server.specs.Resting.{RestsFromClock, RestsFromClock-prop};
ghost use Rattle.link_server.specs.State.{account_in};
ghost use Rattle.std.specs.Vec.{vec_capacity};
ghost use Rattle.link_quota.specs.Closing.{AreClosing, AreClosing-prop, HasRoomToClose, HasRoomToClose-prop};
ghost use Rattle.link_quota.specs.Shares.{AreShares, AreShares-prop};
ghost use Rattle.link_quota.specs.Stood.{IsLegallyStood, IsLegallyStood-prop, SplitFits-prop};

use crate::closing::{drop_expired, give_back_expired, list_released};
use crate::groups::{change_row, group_of, place_of};
use crate::offer::best;
use crate::share::Share;
use link_server::{HeldRow, LinkState};
use link_steps::{Ask, LinkShape, LinkStep, Quota, Refusal, Reply, Split};
use net_units::limits::MOST_LEVELS;
use net_units::{ChanNo, Level, OutOfMemory};
use std::alloc::Global;
use std::vec::Vec;
use traffic_contract::Contract;

/// A link that is split between groups of channels (*ours*): each group has quotas of its own, and a contract goes by those of
/// its channel's group.
///
/// It leaves all asks but a reserve to the link inside. Beside that link it keeps what the rows of each group hold
/// together, so that a reserve looks at no row, and the closing rows, so that a tick in which rows expire looks at no others.
#[derive(Drop)]
pub struct QuotaLink {
    pub(crate) link: LinkState,
    pub(crate) split: Split,
    // What the rows of each group that has a quota hold together, in the order of the quotas.
    pub(crate) shares: Vec<Share>,
    // The closing rows, in the order of their releases, with room for every row that is held.
    pub(crate) closing: Vec<HeldRow>,
    // Nothing falls due in the link inside before this tick.
    pub(crate) due: u64,
    ghost fits: { SplitFits (record { shape = link.shape; split = split }) } by { SplitFits-prop (record { shape = link.shape; split = split }) },
    ghost shared: { AreShares (record { shape = link.shape; split = split }) (reservations_held link) shares.items } by { AreShares-prop (record { shape = link.shape; split = split }) (reservations_held link) shares.items },
    ghost listed: { AreClosing (record { shape = link.shape; split = split }) (reservations_held link) closing.items } by { AreClosing-prop (record { shape = link.shape; split = split }) (reservations_held link) closing.items },
    ghost room: { HasRoomToClose split (reservations_held link) (vec_capacity closing) } by { HasRoomToClose-prop split (reservations_held link) (vec_capacity closing) },
    ghost stood: { IsLegallyStood (record { shape = link.shape; split = split }) (account_in link) } by { IsLegallyStood-prop (record { shape = link.shape; split = split }) (account_in link) },
    ghost rests: { RestsFromClock link.shape due (account_in link) } by { RestsFromClock-prop link.shape due (account_in link) },
}

impl QuotaLink {
    ghost use Rattle.std.specs.Prelude.{true, MatchResult};
    ghost use Rattle.net_units.specs.Limits.{most_bound};
    ghost use Rattle.net_units.specs.LevelBounds.{reach_of};
    ghost use Rattle.net_units.specs.Numbers.{level_number};
    ghost use Rattle.link_steps.specs.declared.replies.Reply.TheVariants.{Offer, Refused};
    ghost use Rattle.link_steps.specs.Levels.{level_of};
    ghost use Rattle.link_steps.specs.Replies.{reserve_reply};
    ghost use Rattle.link_steps.specs.Split.{is_split};
    ghost use Rattle.link_quota.specs.Places.{IsSmall, IsQuotaOf};
    ghost use Rattle.link_quota.specs.Shares.{IsShare};
    ghost use Rattle.link_quota.specs.State.{rules_of, QuotaStands};
    ghost use Rattle.link_quota.specs.Steps.{GoesOn, IsReserve, IsSettling, IsCarrying};
    ghost use Rattle.std.specs.Prelude.{false};
    ghost use Rattle.link_server.specs.Asks.{IsArriveOrTick, IsOffer, TakesNone};
    ghost use Rattle.link_steps.specs.Replies.{reply_to};
    ghost use Rattle.link_steps.specs.declared.asks.Ask.TheVariants.{Tick};
    ghost use Rattle.link_steps.specs.declared.replies.Entry.{Entry};
    ghost use Rattle.link_steps.specs.Legal.{AskFits};
    ghost use Rattle.link_steps.specs.Scan.{clock_with};

    /// A link of this shape, with this split, that has made no step. The quotas of a level together leave room for the
    /// blocking, and those of the buffer fit it.
    pub fn new(alloc: Global, shape: LinkShape, split: Split) -> Result<QuotaLink, OutOfMemory>
        requires { SplitFits (record { shape = shape; split = split }) }
        ensures rules { IfOk result (λ quota. rules_of quota ≡ record { shape = shape; split = split }) }
        ensures stands { IfOk result (λ quota. QuotaStands quota []) }
    {
        let link = LinkState::new(alloc, shape)?;
        let mut shares = Vec::new(alloc);
        for _ in split.quotas() {
            shares.reserve(1)?;
            shares.push_reserved(Share::none());
        }
        Ok(QuotaLink {
            link,
            split,
            shares,
            closing: Vec::new(alloc),
            due: 0,
        })
    }

    /// Makes a step that lets a packet arrive or makes a tick, as [`LinkStep::step`] does. It never wants memory.
    pub fn step_into(&mut self, ask: &Ask, reply: &mut Reply)
        requires fits { AskFits self.old.link.shape ask.now }
        requires early { self.old.link.clock < 2 ^ 61 }
        requires sure { IsArriveOrTick ask.now }
        ensures same { rules_of self.new ≡ rules_of self.old }
        ensures legal { (h : List Entry) → QuotaStands self.old h → reply.new ≡ reply_to (rules_of self.old) h ask.now }
        ensures entered { (h : List Entry) → QuotaStands self.old h → QuotaStands self.new (record { ask = ask.now; reply = reply.new } ∷ h) }
    {
        match self.step(ask) {
            Ok(told) => *reply = told,
            Err(_) => unreachable!(),
        }
    }

    // The share of a group, and its quota: nothing where it has none.
    fn of_group(&self, group: u8) -> (Share, Quota)
        requires splits { is_split self.now.split ≡ true }
        ensures share { IsShare (rules_of self.now) group (reservations_held self.now.link) result.0 }
        ensures small { IsSmall self.now.link.shape.bounds result.0 }
        ensures quota { IsQuotaOf (rules_of self.now) group result.1 }
    {
        match place_of(self.split.quotas(), group) {
            Some(place) => (self.shares[place], self.split.quotas()[place]),
            None => (
                Share::none(),
                Quota {
                    group,
                    buffer: 0,
                    levels: [0; MOST_LEVELS as usize],
                },
            ),
        }
    }

    // The level that a reserve is offered, or its refusal.
    fn offer(
        &self,
        chan: ChanNo,
        contract: &Contract,
        delay: u64,
        up_reach: u64,
    ) -> Result<Level, Refusal>
        requires splits { is_split self.now.split ≡ true }
        requires before { up_reach ≤ most_bound }
        ensures reply { MatchResult result
            (λ level. Offer level (level_of (reach_of self.now.link.shape.bounds delay (level_number level))) ≡ reserve_reply (rules_of self.now) (reservations_held self.now.link) chan contract.now delay up_reach)
            (λ refusal. Refused refusal ≡ reserve_reply (rules_of self.now) (reservations_held self.now.link) chan contract.now delay up_reach) }
    {
        let shape = self.link.shape();
        let smax = contract.smax();
        if smax > shape.cap {
            return Err(Refusal::TooWide {
                smax: u64::from(smax),
                cap: u64::from(shape.cap),
            });
        }
        if let Some(row) = self.link.held_of(chan) {
            return Err(Refusal::Twice { phase: row.phase });
        }
        let group = group_of(&self.split, chan);
        let (share, quota) = self.of_group(group);
        match best(&share, &quota, &shape, contract) {
            Err(over) => Err(Refusal::NoLevel {
                sum: over.sum,
                bound: over.bound,
            }),
            Ok(level) => {
                let need = self.link.need_at(contract, delay, up_reach, level);
                let free = u64::from(quota.buffer) - share.units;
                if need > free {
                    return Err(Refusal::NoBuffer { need, free });
                }
                Ok(level)
            }
        }
    }

    // Answers an ask of a link that isn't split.
    fn whole(&mut self, ask: &Ask) -> Result<Reply, OutOfMemory>
        requires fits { AskFits self.old.link.shape ask.now }
        requires early { self.old.link.clock < 2 ^ 61 }
        requires whole { is_split self.old.split ≡ false }
        ensures shape { self.new.link.shape ≡ self.old.link.shape }
        ensures split { self.new.split ≡ self.old.split }
        ensures goes { IfOk result (λ reply. GoesOn (rules_of self.old) (account_in self.old.link) (account_in self.new.link) ask.now reply) }
        ensures memory { OnErr result ((h : List Entry) → QuotaStands self.old h → QuotaStands self.new h) }
        ensures ticked { IfOk result (λ _. self.new.link.clock ≡ clock_with ask.now self.old.link.clock) }
        ensures stopped { OnErr result (self.new.link.clock ≡ self.old.link.clock) }
        ensures sure { TakesNone ask.now → IsOk result }
        ensures instead { OnErr result ((h : List Entry) → QuotaStands self.old h → IsOffer (reply_to (rules_of self.old) h ask.now)) }
    {
        self.due = 0;
        self.link.step(ask)
    }

    // Answers a reserve.
    fn reserve(&mut self, ask: &Ask) -> Result<Reply, OutOfMemory>
        requires fits { AskFits self.old.link.shape ask.now }
        requires early { self.old.link.clock < 2 ^ 61 }
        requires splits { is_split self.old.split ≡ true }
        requires reserves { IsReserve ask.now }
        ensures shape { self.new.link.shape ≡ self.old.link.shape }
        ensures split { self.new.split ≡ self.old.split }
        ensures goes { IfOk result (λ reply. GoesOn (rules_of self.old) (account_in self.old.link) (account_in self.new.link) ask.now reply) }
        ensures memory { OnErr result ((h : List Entry) → QuotaStands self.old h → QuotaStands self.new h) }
        ensures ticked { IfOk result (λ _. self.new.link.clock ≡ clock_with ask.now self.old.link.clock) }
        ensures stopped { OnErr result (self.new.link.clock ≡ self.old.link.clock) }
        ensures instead { OnErr result ((h : List Entry) → QuotaStands self.old h → IsOffer (reply_to (rules_of self.old) h ask.now)) }
    {
        let Ask::Reserve {
            chan,
            contract,
            delay,
            up_reach,
            ..
        } = ask
        else {
            unreachable!()
        };
        match self.offer(*chan, contract, *delay, *up_reach) {
            Err(refusal) => Ok(Reply::Refused(refusal)),
            Ok(level) => {
                // Room for each row to close, so that nothing but a reserve has to look for memory.
                let rows = self.link.rows_held() as usize + 1;
                self.closing
                    .reserve(rows.saturating_sub(self.closing.len()))?;
                self.due = 0;
                let reply = self.link.reserve_at(ask, level)?;
                let shape = self.link.shape();
                let row = self.link.held_of(*chan);
                change_row(&mut self.shares, &self.split, &shape, None, row);
                Ok(reply)
            }
        }
    }

    // Answers an ask on the row of a channel.
    fn settle(&mut self, chan: ChanNo, ask: &Ask) -> Result<Reply, OutOfMemory>
        requires fits { AskFits self.old.link.shape ask.now }
        requires early { self.old.link.clock < 2 ^ 61 }
        requires splits { is_split self.old.split ≡ true }
        requires settles { IsSettling chan ask.now }
        ensures shape { self.new.link.shape ≡ self.old.link.shape }
        ensures split { self.new.split ≡ self.old.split }
        ensures goes { IfOk result (λ reply. GoesOn (rules_of self.old) (account_in self.old.link) (account_in self.new.link) ask.now reply) }
        ensures memory { OnErr result ((h : List Entry) → QuotaStands self.old h → QuotaStands self.new h) }
        ensures ticked { IfOk result (λ _. self.new.link.clock ≡ clock_with ask.now self.old.link.clock) }
        ensures stopped { OnErr result (self.new.link.clock ≡ self.old.link.clock) }
        ensures sure { IsOk result }
    {
        self.due = 0;
        let before = self.link.held_of(chan);
        let reply = self.link.step(ask)?;
        let shape = self.link.shape();
        let after = self.link.held_of(chan);
        list_released(&mut self.closing, &before, &after);
        change_row(&mut self.shares, &self.split, &shape, before, after);
        Ok(reply)
    }

    // Makes a tick in which something may fall due, and then looks until when nothing does. Rows may expire in it. It passes on
    // the answer of the link inside as it stands, since each copy of a reply takes as long as a part of the tick.
    #[inline(never)]
    fn tick(&mut self, ask: &Ask) -> Result<Reply, OutOfMemory>
        requires fits { AskFits self.old.link.shape ask.now }
        requires early { self.old.link.clock < 2 ^ 61 }
        requires splits { is_split self.old.split ≡ true }
        requires ticks { ask.now ≡ Tick }
        ensures shape { self.new.link.shape ≡ self.old.link.shape }
        ensures split { self.new.split ≡ self.old.split }
        ensures goes { IfOk result (λ reply. GoesOn (rules_of self.old) (account_in self.old.link) (account_in self.new.link) ask.now reply) }
        ensures memory { OnErr result ((h : List Entry) → QuotaStands self.old h → QuotaStands self.new h) }
        ensures ticked { IfOk result (λ _. self.new.link.clock ≡ clock_with ask.now self.old.link.clock) }
        ensures stopped { OnErr result (self.new.link.clock ≡ self.old.link.clock) }
        ensures sure { IsOk result }
    {
        self.due = 0;
        let before = self.link.rows_held();
        let reply = self.link.step(ask);
        self.due = self.link.rests_until();
        if self.link.rows_held() < before {
            give_back_expired(&mut self.shares, &self.split, &self.link, &self.closing);
            drop_expired(&mut self.closing, &self.link);
        }
        reply
    }

    // Answers an ask that carries packets.
    fn carry(&mut self, ask: &Ask) -> Result<Reply, OutOfMemory>
        requires fits { AskFits self.old.link.shape ask.now }
        requires early { self.old.link.clock < 2 ^ 61 }
        requires carries { IsCarrying ask.now }
        ensures shape { self.new.link.shape ≡ self.old.link.shape }
        ensures split { self.new.split ≡ self.old.split }
        ensures goes { IfOk result (λ reply. GoesOn (rules_of self.old) (account_in self.old.link) (account_in self.new.link) ask.now reply) }
        ensures memory { OnErr result ((h : List Entry) → QuotaStands self.old h → QuotaStands self.new h) }
        ensures ticked { IfOk result (λ _. self.new.link.clock ≡ clock_with ask.now self.old.link.clock) }
        ensures stopped { OnErr result (self.new.link.clock ≡ self.old.link.clock) }
        ensures sure { IsOk result }
    {
        self.due = 0;
        self.link.step(ask)
    }

    // Answers any ask. Most are ticks in which nothing falls due: such a tick waits for none of what the others need, and is
    // made where it is called, since to copy its reply once more takes longer than all of it.
    #[inline(always)]
    fn answer(&mut self, ask: &Ask) -> Result<Reply, OutOfMemory>
        requires fits { AskFits self.old.link.shape ask.now }
        requires early { self.old.link.clock < 2 ^ 61 }
        ensures shape { self.new.link.shape ≡ self.old.link.shape }
        ensures split { self.new.split ≡ self.old.split }
        ensures goes { IfOk result (λ reply. GoesOn (rules_of self.old) (account_in self.old.link) (account_in self.new.link) ask.now reply) }
        ensures memory { OnErr result ((h : List Entry) → QuotaStands self.old h → QuotaStands self.new h) }
        ensures ticked { IfOk result (λ _. self.new.link.clock ≡ clock_with ask.now self.old.link.clock) }
        ensures stopped { OnErr result (self.new.link.clock ≡ self.old.link.clock) }
        ensures sure { TakesNone ask.now → IsOk result }
        ensures instead { OnErr result ((h : List Entry) → QuotaStands self.old h → IsOffer (reply_to (rules_of self.old) h ask.now)) }
    {
        match ask {
            Ask::Tick if self.link.clock() < self.due => Ok(self.rest_once()),
            Ask::Tick if !self.split.quotas().is_empty() => self.tick(ask),
            _ => self.make_step(ask),
        }
    }

    // Answers an ask by which something may fall due.
    #[inline(never)]
    fn make_step(&mut self, ask: &Ask) -> Result<Reply, OutOfMemory>
        requires fits { AskFits self.old.link.shape ask.now }
        requires early { self.old.link.clock < 2 ^ 61 }
        ensures shape { self.new.link.shape ≡ self.old.link.shape }
        ensures split { self.new.split ≡ self.old.split }
        ensures goes { IfOk result (λ reply. GoesOn (rules_of self.old) (account_in self.old.link) (account_in self.new.link) ask.now reply) }
        ensures memory { OnErr result ((h : List Entry) → QuotaStands self.old h → QuotaStands self.new h) }
        ensures ticked { IfOk result (λ _. self.new.link.clock ≡ clock_with ask.now self.old.link.clock) }
        ensures stopped { OnErr result (self.new.link.clock ≡ self.old.link.clock) }
        ensures sure { TakesNone ask.now → IsOk result }
        ensures instead { OnErr result ((h : List Entry) → QuotaStands self.old h → IsOffer (reply_to (rules_of self.old) h ask.now)) }
    {
        if self.split.quotas().is_empty() {
            return self.whole(ask);
        }
        match ask {
            Ask::Reserve { .. } => self.reserve(ask),
            Ask::Relax { chan, .. } => self.settle(*chan, ask),
            Ask::Deny { chan } => self.settle(*chan, ask),
            Ask::Release { chan, .. } => self.settle(*chan, ask),
            Ask::Tick => self.tick(ask),
            _ => self.carry(ask),
        }
    }
}

impl LinkStep for QuotaLink {
    ghost use Rattle.link_steps.specs.declared.replies.Entry.{Entry};
    ghost use Rattle.link_steps.specs.HopGuarantee.{HopGuarantee};
    ghost use Rattle.link_steps.specs.Legal.{AskFits, IsLegal};
    ghost use Rattle.link_steps.specs.Replies.{reply_to};
    ghost use Rattle.link_steps.specs.Scan.{clock_with};
    ghost use Rattle.link_server.specs.Asks.{IsOffer, TakesNone};
    ghost use Rattle.link_quota.specs.State.{rules_of, QuotaStands, quota-clock, quota-fits};

    ghost link_of = { rules_of };

    ghost clock_at = { λ quota. quota.link.clock };

    ghost stands_for = { QuotaStands };

    fn shape(&self) -> LinkShape {
        self.link.shape()
    }

    fn clock(&self) -> u64 {
        self.link.clock()
    }

    /// Makes one step. A reply that is a refusal leaves the link as it was, and so does want of memory, which comes for a
    /// reserve alone, and there only in place of an offer.
    ///
    /// Where the history is legal, the next one has the hop guarantee (`guaranteed`): after each of its entries the
    /// held rows, of all groups together, pass the admission test, and each packet leaves in time.
    #[inline(always)]
    fn step(&mut self, ask: &Ask) -> Result<Reply, OutOfMemory>
        requires fits { AskFits self.old.link.shape ask.now }
        requires early { self.old.link.clock < 2 ^ 61 }
        ensures same { rules_of self.new ≡ rules_of self.old }
        ensures legal { IfOk result (λ reply. (h : List Entry) → QuotaStands self.old h → reply ≡ reply_to (rules_of self.old) h ask.now) }
        ensures entered { IfOk result (λ reply. (h : List Entry) → QuotaStands self.old h → QuotaStands self.new (record { ask = ask.now; reply = reply } ∷ h)) }
        ensures memory { OnErr result ((h : List Entry) → QuotaStands self.old h → QuotaStands self.new h) }
        ensures ticked { IfOk result (λ _. self.new.link.clock ≡ clock_with ask.now self.old.link.clock) }
        ensures stopped { OnErr result (self.new.link.clock ≡ self.old.link.clock) }

        // The hop guarantee, and want of memory.
        ensures guaranteed { IfOk result (λ reply. (h : List Entry) → QuotaStands self.old h → IsLegal (rules_of self.old) h → HopGuarantee self.old.link.shape (record { ask = ask.now; reply = reply } ∷ h)) }
        ensures sure { TakesNone ask.now → IsOk result }
        ensures instead { OnErr result ((h : List Entry) → QuotaStands self.old h → IsOffer (reply_to (rules_of self.old) h ask.now)) }
    {
        self.answer(ask)
    }

    ghost tells_time = { quota-clock };

    ghost is_fit = { quota-fits };
}
