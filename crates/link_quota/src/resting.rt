//! A split link rests while nothing falls due in it: no row expires, so its groups hold what they held.
ghost use Rattle.std.specs.Prelude.{◌≡◌, true, ℕ, ◌+◌, ◌^◌, ◌<◌, ◌≤◌, List};
ghost use Rattle.link_steps.specs.declared.asks.Ask.TheVariants.{Tick};
ghost use Rattle.link_steps.specs.declared.replies.Entry.{Entry};
ghost use Rattle.link_steps.specs.Quiet.{RestsUntil, later_by, quiet_reply, quiet_ticks};
ghost use Rattle.link_steps.specs.Replies.{reply_to};
ghost use Rattle.link_server.specs.State.{account_in};
ghost use Rattle.link_quota.specs.Any.{any_clock, any_account, any_rules, AnyStands};
ghost use Rattle.link_quota.specs.State.{rules_of, QuotaStands};
ghost use Rattle.link_quota.specs.Steps.{GoesOn};

use crate::any_link::AnyLink;
use crate::quota_link::QuotaLink;
use link_steps::{LinkStep, Reply};

impl QuotaLink {
    /// A tick before which nothing falls due: no row's hold ends, no packet is planned, and none starts or departs.
    pub fn rests_until(&self) -> u64
        ensures { RestsUntil self.now.link.shape result (account_in self.now.link) }
    {
        self.link.rests_until()
    }

    /// Whether it rests in its next tick, as far as it knows without a look at its rows and packets.
    #[inline(always)]
    pub fn rests(&self) -> bool
        ensures { result ≡ true → (until : ℕ) × (RestsUntil self.now.link.shape until (account_in self.now.link) × (self.now.link.clock + 1 ≤ until)) }
    {
        self.link.clock() < self.due
    }

    /// Makes this many ticks, all before a tick until which the link rests.
    pub fn rest(&mut self, ticks: u64)
        requires rests { (until : ℕ) × (RestsUntil self.old.link.shape until (account_in self.old.link) × (self.old.link.clock + ticks ≤ until)) }
        requires early { self.old.link.clock + ticks ≤ 2 ^ 61 }
        ensures same { rules_of self.new ≡ rules_of self.old }
        ensures clock { self.new.link.clock ≡ self.old.link.clock + ticks }
        ensures kept { account_in self.new.link ≡ later_by ticks (account_in self.old.link) }
        ensures made { (h : List Entry) → QuotaStands self.old h → QuotaStands self.new (quiet_ticks ticks self.old.link.clock h) }
        ensures legal { (m : ℕ) (h : List Entry) → m < ticks → QuotaStands self.old h → quiet_reply (self.old.link.clock + m) ≡ reply_to (rules_of self.old) (quiet_ticks m self.old.link.clock h) Tick }
    {
        self.link.rest(ticks);
    }

    // Makes a tick in which nothing falls due.
    pub(crate) fn rest_once(&mut self) -> Reply
        requires rests { self.old.link.clock < self.old.due }
        requires early { self.old.link.clock < 2 ^ 61 }
        ensures shape { self.new.link.shape ≡ self.old.link.shape }
        ensures split { self.new.split ≡ self.old.split }
        ensures goes { GoesOn (rules_of self.old) (account_in self.old.link) (account_in self.new.link) Tick result }
        ensures clock { self.new.link.clock ≡ self.old.link.clock + 1 }
    {
        let clock = self.link.clock();
        self.rest(1);
        Reply::Ticked {
            clock,
            full: 0,
            sent: None,
            best_sent: false,
            best_lost: false,
        }
    }
}

impl AnyLink {
    /// A tick before which nothing falls due: no row's hold ends, no packet is planned, and none starts or departs.
    pub fn rests_until(&self) -> u64
        ensures { RestsUntil (any_rules self.now).shape result (any_account self.now) }
    {
        match self {
            AnyLink::Plain(link) => link.rests_until(),
            AnyLink::Quota(link) => link.rests_until(),
        }
    }

    /// Whether it rests in its next tick, as far as it knows without a look at its rows and packets.
    #[inline(always)]
    pub fn rests(&self) -> bool
        ensures { result ≡ true → (until : ℕ) × (RestsUntil (any_rules self.now).shape until (any_account self.now) × (any_clock self.now + 1 ≤ until)) }
    {
        match self {
            AnyLink::Plain(link) => link.rests(),
            AnyLink::Quota(link) => link.rests(),
        }
    }

    /// Makes this many ticks, all before a tick until which the link rests.
    pub fn rest(&mut self, ticks: u64)
        requires rests { (until : ℕ) × (RestsUntil (any_rules self.old).shape until (any_account self.old) × (any_clock self.old + ticks ≤ until)) }
        requires early { any_clock self.old + ticks ≤ 2 ^ 61 }
        ensures same { any_rules self.new ≡ any_rules self.old }
        ensures clock { any_clock self.new ≡ any_clock self.old + ticks }
        ensures kept { any_account self.new ≡ later_by ticks (any_account self.old) }
        ensures made { (h : List Entry) → AnyStands self.old h → AnyStands self.new (quiet_ticks ticks (any_clock self.old) h) }
        ensures legal { (m : ℕ) (h : List Entry) → m < ticks → AnyStands self.old h → quiet_reply (any_clock self.old + m) ≡ reply_to (any_rules self.old) (quiet_ticks m (any_clock self.old) h) Tick }
    {
        match self {
            AnyLink::Plain(link) => link.rest(ticks),
            AnyLink::Quota(link) => link.rest(ticks),
        }
    }
}
