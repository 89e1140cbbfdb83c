//! The asks of a link but for its ticks.
ghost use Rattle.std.specs.Prelude.{◌≡◌, ◌^◌, ◌<◌, IfOk, OnErr, IsOk};
ghost use Rattle.link_steps.specs.declared.asks.Ask.TheVariants.{Tick as AskTick};
ghost use Rattle.link_steps.specs.Account.{account_reply, account_after};
ghost use Rattle.link_steps.specs.Legal.{AskFits};
ghost use Rattle.link_steps.specs.Split.{whole};
ghost use Rattle.link_server.specs.Asks.{IsOffer, TakesNone};
ghost use Rattle.link_server.specs.State.{account_in};

mod carrying;
mod setup;

use crate::link_state::LinkState;
use crate::table::served_row::Wanted;
use link_steps::{Ask, Reply};
use net_units::OutOfMemory;

impl LinkState {
    // Answers any ask but a tick. An `Err` comes for a reserve alone, and only where the reply would be an offer.
    #[inline(never)]
    pub(crate) fn answer(&mut self, ask: &Ask) -> Result<Reply, OutOfMemory>
        requires fits { AskFits self.old.shape ask.now }
        requires early { self.old.clock < 2 ^ 61 }
        requires other { ask.now ≡ AskTick → ⊥ }
        ensures shape { self.new.shape ≡ self.old.shape }
        ensures clock { self.new.clock ≡ self.old.clock }
        ensures reply { IfOk result (λ reply. reply ≡ account_reply (whole self.old.shape) (account_in self.old) ask.now) }
        ensures kept { IfOk result (λ reply. account_in self.new ≡ account_after self.old.shape (account_in self.old) ask.now reply) }
        ensures memory { OnErr result (account_in self.new ≡ account_in self.old) }
        ensures instead { OnErr result (IsOffer (account_reply (whole self.old.shape) (account_in self.old) ask.now)) }
        ensures sure { TakesNone ask.now → IsOk result }
    {
        match ask {
            Ask::Reserve {
                chan,
                contract,
                kind,
                delay,
                up_reach,
                first,
                next,
            } => self.reserve(&Wanted {
                chan: *chan,
                contract: *contract,
                kind: *kind,
                delay: *delay,
                up_reach: *up_reach,
                first: *first,
                next: *next,
            }),
            Ask::Relax {
                chan,
                level,
                up_bound,
            } => Ok(self.relax(*chan, *level, *up_bound)),
            Ask::Deny { chan } => Ok(self.deny(*chan)),
            Ask::Submit {
                chan,
                count,
                gap,
                size,
            } => Ok(self.submit(*chan, *count, *gap, *size)),
            Ask::Release { chan, upstream } => Ok(self.release(*chan, *upstream)),
            Ask::Arrive { packet } => {
                // any reply: the arrival writes its own
                let mut reply = Reply::Denied;
                self.arrive(packet, &mut reply);
                Ok(reply)
            }
            Ask::Tick => unreachable!(),
            Ask::Pour { count, gap, size } => Ok(self.pour(*count, *gap, *size)),
        }
    }
}
