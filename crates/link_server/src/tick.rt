//! The tick of a link: its parts in their order, or none of them where nothing falls due.
ghost use Rattle.std.specs.Prelude.{◌≡◌, ◌^◌, ◌<◌, suc, IfOk, IsOk};
ghost use Rattle.link_steps.specs.declared.asks.Ask.TheVariants.{Tick as AskTick};
ghost use Rattle.link_steps.specs.Account.{account_reply, account_after};
ghost use Rattle.link_steps.specs.Split.{whole};
ghost use Rattle.link_server.specs.State.{account_in};

pub(crate) mod resting;

use crate::link_state::LinkState;
use crate::tick::resting::next_due;
use link_steps::Reply;
use net_units::OutOfMemory;

impl LinkState {
    // Makes a tick. Where nothing falls due it looks at nothing but the tick until which the link rests.
    pub(crate) fn tick(&mut self) -> Result<Reply, OutOfMemory>
        requires early { self.old.clock < 2 ^ 61 }
        ensures made { IsOk result }
        ensures shape { self.new.shape ≡ self.old.shape }
        ensures clock { self.new.clock ≡ suc self.old.clock }
        ensures reply { IfOk result (λ reply. reply ≡ account_reply (whole self.old.shape) (account_in self.old) AskTick) }
        ensures kept { IfOk result (λ reply. account_in self.new ≡ account_after self.old.shape (account_in self.old) AskTick reply) }
    {
        if self.clock < self.due {
            return Ok(self.rest_once());
        }
        // any reply: the tick writes its own
        let mut reply = Reply::Denied;
        self.make_tick(&mut reply);
        Ok(reply)
    }

    // Makes a tick in which something may fall due: rows whose hold has ended expire, the source packets that are planned for it
    // arrive, then the best-effort packet, and the link serves the packets here. It never wants memory. The reply is written in its
    // place.
    #[inline(never)]
    pub(crate) fn make_tick(&mut self, reply: &mut Reply)
        requires early { self.old.clock < 2 ^ 61 }
        ensures shape { self.new.shape ≡ self.old.shape }
        ensures clock { self.new.clock ≡ suc self.old.clock }
        ensures reply { reply.new ≡ account_reply (whole self.old.shape) (account_in self.old) AskTick }
        ensures kept { account_in self.new ≡ account_after self.old.shape (account_in self.old) AskTick reply.new }
    {
        let clock = self.clock;
        self.table.expire(clock);
        let fits = self.queue.best_fits(&self.shape, clock);
        let full = self.table.take_source_packets(&mut self.queue, clock);
        let best_lost = self.queue.take_best(fits, &self.shape, clock);
        let left = self.queue.serve(&self.shape, clock);
        self.table.depart(left.gone);
        self.clock += 1;
        self.due = next_due(&self.table, &self.queue);
        *reply = Reply::Ticked {
            clock,
            full,
            sent: left.sent,
            best_sent: left.best_sent,
            best_lost,
        };
    }
}
