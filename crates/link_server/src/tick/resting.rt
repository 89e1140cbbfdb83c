//! A link rests while nothing falls due in it: its ticks then change its clock alone.
ghost use Rattle.std.specs.Prelude.{◌≡◌, true, ℕ, ◌+◌, ◌^◌, ◌<◌, ◌≤◌, suc, List};
ghost use Rattle.link_steps.specs.declared.asks.Ask.TheVariants.{Tick as AskTick};
ghost use Rattle.link_steps.specs.Account.{account_reply, account_after};
ghost use Rattle.link_steps.specs.Lists.{Each};
ghost use Rattle.link_steps.specs.Replies.{reply_to};
ghost use Rattle.link_steps.specs.Split.{whole};
ghost use Rattle.link_steps.specs.declared.replies.Entry.{Entry};
ghost use Rattle.link_server.specs.State.{LinkStands, account_in};
ghost use Rattle.link_steps.specs.Quiet.{IsPlannedFrom, RestsUntil, RowRests, ServiceRests, later_by, quiet_reply, quiet_ticks};

use crate::link_state::LinkState;
use crate::queue::Queue;
use crate::table::Table;
use link_steps::Reply;

impl LinkState {
    /// A tick before which nothing falls due: no row's hold ends, no packet is planned, and none starts or departs.
    pub fn rests_until(&self) -> u64
        ensures { RestsUntil self.now.shape result (account_in self.now) }
    {
        if self.clock < self.due {
            return self.due;
        }
        next_due(&self.table, &self.queue)
    }

    /// Whether it rests in its next tick, as far as it knows without a look at its rows and packets.
    #[inline(always)]
    pub fn rests(&self) -> bool
        ensures { result ≡ true → (until : ℕ) × (RestsUntil self.now.shape until (account_in self.now) × (self.now.clock + 1 ≤ until)) }
    {
        self.clock < self.due
    }

    /// Makes this many ticks, all before a tick until which the link rests.
    pub fn rest(&mut self, ticks: u64)
        requires rests { (until : ℕ) × (RestsUntil self.old.shape until (account_in self.old) × (self.old.clock + ticks ≤ until)) }
        requires early { self.old.clock + ticks ≤ 2 ^ 61 }
        ensures same { whole self.new.shape ≡ whole self.old.shape }
        ensures clock { self.new.clock ≡ self.old.clock + ticks }
        ensures kept { account_in self.new ≡ later_by ticks (account_in self.old) }
        ensures made { (h : List Entry) → LinkStands self.old h → LinkStands self.new (quiet_ticks ticks self.old.clock h) }
        ensures legal { (m : ℕ) (h : List Entry) → m < ticks → LinkStands self.old h → quiet_reply (self.old.clock + m) ≡ reply_to (whole self.old.shape) (quiet_ticks m self.old.clock h) AskTick }
    {
        self.clock += ticks;
    }

    // Makes a tick in which nothing falls due.
    pub(crate) fn rest_once(&mut self) -> Reply
        requires rests { self.old.clock < self.old.due }
        requires early { self.old.clock < 2 ^ 61 }
        ensures shape { self.new.shape ≡ self.old.shape }
        ensures clock { self.new.clock ≡ suc self.old.clock }
        ensures reply { result ≡ account_reply (whole self.old.shape) (account_in self.old) AskTick }
        ensures kept { account_in self.new ≡ account_after self.old.shape (account_in self.old) AskTick result }
    {
        let clock = self.clock;
        self.rest(1);
        Reply::Ticked {
            clock,
            full: 0,
            sent: None,
            best_sent: false,
            best_lost: false,
        }
    }
}

// A tick before which nothing falls due at a link with these rows and packets.
pub(crate) fn next_due(table: &Table, queue: &Queue) -> u64
    ensures rows { (clock : ℕ) → table.now.looked ≤ clock → Each (RowRests table.now.server.bounds clock result) table.now.rows }
    ensures best { Each (IsPlannedFrom result) queue.now.best }
    ensures service { ServiceRests queue.now.rate result queue.now.here queue.now.on }
{
    queue.rests_until().min(table.rests_until())
}

// The same once a packet has come that is eligible at this tick, for a link whose clock this is. Where that is now, the next tick looks
// at all of them anyway, so nothing is looked at here.
pub(crate) fn due_after(eligible: u64, clock: u64, table: &Table, queue: &Queue) -> u64
    ensures rows { clock < result → (t : ℕ) → table.now.looked ≤ t → Each (RowRests table.now.server.bounds t result) table.now.rows }
    ensures best { clock < result → Each (IsPlannedFrom result) queue.now.best }
    ensures service { clock < result → ServiceRests queue.now.rate result queue.now.here queue.now.on }
{
    if eligible <= clock {
        return 0;
    }
    next_due(table, queue)
}
