//! The asks by which a link carries packets: submit, release, arrive and pour.
ghost use Rattle.std.specs.Prelude.{◌≡◌, ◌^◌, ◌<◌, ◌≤◌};
ghost use Rattle.link_steps.specs.declared.asks.Ask.TheVariants.{Submit as AskSubmit, Release as AskRelease, Arrive as AskArrive, Pour as AskPour};
ghost use Rattle.link_steps.specs.Split.{whole};
ghost use Rattle.link_steps.specs.Account.{account_reply, account_after};
ghost use Rattle.link_steps.specs.Legal.{SubmitFits, PacketFits};
ghost use Rattle.link_server.specs.State.{account_in};

use crate::link_state::LinkState;
use crate::planned::Planned;
use crate::table::served_row::busy_with;
use crate::tick::resting::due_after;
use link_steps::{Packet, Refusal, Reply};
use net_units::ChanNo;

impl LinkState {
    // Plans source packets at the first hop, the first at the clock.
    pub(crate) fn submit(&mut self, chan: ChanNo, count: u64, gap: u64, size: u32) -> Reply
        requires fits { SubmitFits count gap size }
        requires early { self.old.clock < 2 ^ 61 }
        ensures shape { self.new.shape ≡ self.old.shape }
        ensures clock { self.new.clock ≡ self.old.clock }
        ensures reply { result ≡ account_reply (whole self.old.shape) (account_in self.old) (AskSubmit chan count gap size) }
        ensures kept { account_in self.new ≡ account_after self.old.shape (account_in self.old) (AskSubmit chan count gap size) result }
    {
        let Some(row) = self.table.row_at_hop(chan, true) else {
            return Reply::Refused(Refusal::NoSuch);
        };
        if let Some(refusal) = row.not_committed() {
            return Reply::Refused(refusal);
        }
        if let Some(refusal) = row.busy() {
            return Reply::Refused(refusal);
        }
        if let Some(refusal) = row.too_big(size) {
            return Reply::Refused(refusal);
        }
        self.due = 0;
        let planned = Planned {
            tick: self.clock,
            gap,
            size,
            count,
        };
        self.table.plan(chan, planned);
        Reply::Planned { clock: self.clock }
    }

    // Closes a committed reservation: the one at its first hop where no count is told, or else one at a later hop.
    pub(crate) fn release(&mut self, chan: ChanNo, upstream: Option<u64>) -> Reply
        requires early { self.old.clock < 2 ^ 61 }
        ensures shape { self.new.shape ≡ self.old.shape }
        ensures clock { self.new.clock ≡ self.old.clock }
        ensures reply { result ≡ account_reply (whole self.old.shape) (account_in self.old) (AskRelease chan upstream) }
        ensures kept { account_in self.new ≡ account_after self.old.shape (account_in self.old) (AskRelease chan upstream) result }
    {
        let Some(row) = self.table.row_at_hop(chan, upstream.is_none()) else {
            return Reply::Refused(Refusal::NoSuch);
        };
        if let Some(refusal) = row.not_committed() {
            return Reply::Refused(refusal);
        }
        let count = row.count_at_release(upstream);
        let cancelled = row.cancelled_at_release(upstream);
        self.due = 0;
        self.table.close(chan, count, self.clock);
        Reply::Closing { count, cancelled }
    }

    // Takes a packet from the link before. The reply is written in its place.
    pub(crate) fn arrive(&mut self, packet: &Packet, reply: &mut Reply)
        requires fits { PacketFits packet.now }
        requires early { self.old.clock < 2 ^ 61 }
        ensures shape { self.new.shape ≡ self.old.shape }
        ensures clock { self.new.clock ≡ self.old.clock }
        ensures reply { reply.new ≡ account_reply (whole self.old.shape) (account_in self.old) (AskArrive packet.now) }
        ensures kept { account_in self.new ≡ account_after self.old.shape (account_in self.old) (AskArrive packet.now) reply.new }
    {
        let clock = self.clock;
        let number = self.queue.taken() + 1;
        match self.table.take(packet, number, clock) {
            Ok(taken) => {
                self.queue.push(&taken, clock);
                self.due = due_after(taken.eligible, clock, &self.table, &self.queue);
                *reply = Reply::Taken {
                    clock,
                    eligible: taken.eligible,
                };
            }
            Err(refusal) => *reply = Reply::Refused(refusal),
        }
    }

    // Plans best-effort packets, the first at the clock.
    pub(crate) fn pour(&mut self, count: u64, gap: u64, size: u32) -> Reply
        requires some { 1 ≤ self.old.shape.best }
        requires fits { SubmitFits count gap size }
        requires early { self.old.clock < 2 ^ 61 }
        ensures shape { self.new.shape ≡ self.old.shape }
        ensures clock { self.new.clock ≡ self.old.clock }
        ensures reply { result ≡ account_reply (whole self.old.shape) (account_in self.old) (AskPour count gap size) }
        ensures kept { account_in self.new ≡ account_after self.old.shape (account_in self.old) (AskPour count gap size) result }
    {
        if let Some(refusal) = busy_with(self.queue.best_left()) {
            return Reply::Refused(refusal);
        }
        if size > self.shape.cap {
            return Reply::Refused(Refusal::TooBig {
                size: u64::from(size),
                smax: u64::from(self.shape.cap),
            });
        }
        self.due = 0;
        self.queue.plan_best(Planned {
            tick: self.clock,
            gap,
            size,
            count,
        });
        Reply::Planned { clock: self.clock }
    }
}
