//! What the hops of a request have offered in a run.
ghost use Rattle.std.specs.Prelude.{◌≡◌, ◌++◌, ◌∷◌, [], List, IfOk, OnOk, map, reverse};
ghost use Rattle.net_units.specs.Numbers.{channel_number, level_number};
ghost use Rattle.setup_protocol.specs.Setup.{offers_in};
ghost use Rattle.run_engine.specs.replies.Verdicts.{is_setup_ask, setup_replies};
ghost use Rattle.link_steps.specs.declared.replies.Reply.{Reply as Replied};
ghost use Rattle.run_record.specs.declared.done.Done.{Done as Entry};
ghost use Rattle.plan_answers.specs.Offers.{AreOffersOf};

use link_steps::{Ask, Reply};
use net_units::{ChanNo, Level, OutOfMemory};
use run_record::Done;
use std::alloc::Global;

// The offers of a setup so far, and whether a reply that is none has come after them.
#[derive(Drop)]
pub(crate) struct Offers {
    levels: Vec<Level>,
    are_over: bool,
}

/// The levels that the hops of a channel have offered in these entries of a run, from the first hop on. The entries stand in the order of time.
pub fn offers_among(
    alloc: Global,
    entries: &[Done],
    chan: ChanNo,
) -> Result<Vec<Level>, OutOfMemory>
    ensures { IfOk result (λ levels. map level_number levels.items ≡ offers_in (setup_replies (channel_number chan) (reverse entries.now))) }
{
    let mut offers = Offers {
        levels: Vec::new(alloc),
        are_over: false,
    };
    for done in entries {
        offers.see(chan, done)?;
    }
    Ok(offers.levels)
}

impl Offers {
    // Sees the next entry, which may be of the setup of the channel.
    fn see(&mut self, chan: ChanNo, done: &Done) -> Result<(), OutOfMemory>
        ensures { OnOk result ((past : List Entry) → AreOffersOf self.old (setup_replies (channel_number chan) past) → AreOffersOf self.new (setup_replies (channel_number chan) (done.now ∷ past))) }
    {
        if !is_of_setup(&done.ask, chan) {
            return Ok(());
        }
        self.take(&done.reply)?;
        Ok(())
    }

    // Takes the next reply of the setup.
    fn take(&mut self, reply: &Reply) -> Result<(), OutOfMemory>
        ensures { OnOk result ((replies : List Replied) → AreOffersOf self.old replies → AreOffersOf self.new (replies ++ reply.now ∷ [])) }
    {
        let Reply::Offer { level, .. } = reply else {
            self.are_over = true;
            return Ok(());
        };
        if self.are_over {
            return Ok(());
        }
        self.levels.push(*level)?;
        Ok(())
    }
}

// Whether a setup of the channel asks so.
fn is_of_setup(ask: &Ask, of: ChanNo) -> bool
    ensures { result ≡ is_setup_ask (channel_number of) ask.now }
{
    match ask {
        Ask::Reserve { chan, .. } | Ask::Relax { chan, .. } | Ask::Deny { chan } => {
            chan.get() == of.get()
        }
        _ => false,
    }
}
